// Reads of ranges, and the conflicts that they leave.
pub const TABLES: [&str; 5] = [
    GAP_FILLED,
    GAP_UNTOUCHED,
    GAP_SNAPSHOT_READ,
    COMPARE_AND_CLEAR,
    RANGES_REFUSED,
];

pub const GAP_FILLED: &str = "\
    config proxies 1 logs 1 resolvers m shards - book 100
    ask 0 0
    grant 0 > grant 0=0
    write 0 set a 1
    write 0 set b 2
    write 0 set c 3
    submit 0 0
    seal 0 100 > entry 0 version 100 prev 0 places 1
    drive 0 > answer 0=100/0
    ask 1 0
    ask 2 0
    grant 0 > grant 1=100 2=100
    pull 0 9 > through 100
    write 1 clear a
    write 1 set bb x
    range 1 a z 2 > pairs 2 b=2 bb=x
    show 1 > reads a%00:bb writes a:a%00 bb:bb%00
    write 2 set ab y
    submit 2 0
    seal 0 100 > entry 1 version 200 prev 100 places 1
    drive 0 > answer 2=200/0
    submit 1 0
    seal 0 100 > entry 2 version 300 prev 200 places 1
    drive 0 > answer 1=1020
    conflict 1 > conflict ab:ab%00
    end > checked 2
";

pub const GAP_UNTOUCHED: &str = "\
    config proxies 1 logs 1 resolvers m shards - book 100
    ask 0 0
    grant 0 > grant 0=0
    write 0 set a 1
    write 0 set b 2
    write 0 set c 3
    submit 0 0
    seal 0 100 > entry 0 version 100 prev 0 places 1
    drive 0 > answer 0=100/0
    ask 1 0
    ask 2 0
    grant 0 > grant 1=100 2=100
    pull 0 9 > through 100
    write 1 clear a
    write 1 set bb x
    range 1 a z 2 > pairs 2 b=2 bb=x
    show 1 > reads a%00:bb writes a:a%00 bb:bb%00
    write 2 set c y
    submit 2 0
    seal 0 100 > entry 1 version 200 prev 100 places 1
    drive 0 > answer 2=200/0
    submit 1 0
    seal 0 100 > entry 2 version 300 prev 200 places 1
    drive 0 > answer 1=300/0
    end > checked 3
";

const GAP_SNAPSHOT_READ: &str = "\
    config proxies 1 logs 1 resolvers m shards - book 100
    ask 0 0
    grant 0 > grant 0=0
    write 0 set a 1
    write 0 set b 2
    write 0 set c 3
    submit 0 0
    seal 0 100 > entry 0 version 100 prev 0 places 1
    drive 0 > answer 0=100/0
    ask 1 0
    ask 2 0
    grant 0 > grant 1=100 2=100
    pull 0 9 > through 100
    write 1 clear a
    write 1 set bb x
    srange 1 a z 2 > pairs 2 b=2 bb=x
    show 1 > reads writes a:a%00 bb:bb%00
    write 2 set ab y
    submit 2 0
    seal 0 100 > entry 1 version 200 prev 100 places 1
    drive 0 > answer 2=200/0
    submit 1 0
    seal 0 100 > entry 2 version 300 prev 200 places 1
    drive 0 > answer 1=300/0
    end > checked 3
";

const COMPARE_AND_CLEAR: &str = "\
    config proxies 1 logs 1 resolvers m shards - book 100
    ask 0 0
    grant 0 > grant 0=0
    write 0 set a 1
    write 0 set b 2
    write 0 set c 3
    submit 0 0
    seal 0 100 > entry 0 version 100 prev 0 places 1
    drive 0 > answer 0=100/0
    ask 1 0
    ask 2 0
    grant 0 > grant 1=100 2=100
    pull 0 9 > through 100
    write 1 cac a 1
    write 1 cac b 9
    get 1 a > none
    get 1 b > value 2
    show 1 > reads a:a%00 b:b%00 writes a:a%00 b:b%00
    range 2 a z 1 reverse > pairs 1 c=3
    show 2 > reads c:z writes
    end > checked 1
";

// Reads of ranges that are refused, and what is left of them: nothing.
const RANGES_REFUSED: &str = "\
    config proxies 1 logs 1 resolvers - shards - book 100
    range 0 a z 1 > refused 9015 NoTransaction
    ask 0 0
    grant 0 > grant 0=0
    range 0 z a 1 > refused 2005 InvertedRange
    range 0 a z 0 reverse > pairs 0
    write 0 set b x
    range 0 a z 0 > pairs 1 b=x
    srange 0 a b 0 > pairs 0
    show 0 > reads a:z writes b:b%00
    submit 0 0
    seal 0 100 > entry 0 version 100 prev 0 places 1
    drive 0 > answer 0=100/0
    ask 0 0
    grant 0 > grant 0=100
    range 0 a z 1 > refused 1009 FutureVersion
    range 0 a a 1 > pairs 0
    pull 0 9 > through 100
    range 0 a z 1 reverse > pairs 1 b=x
    show 0 > reads b:z writes
    end > checked 1
";
