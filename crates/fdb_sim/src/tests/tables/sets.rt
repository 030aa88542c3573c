// What joins the read and the write set of a transaction, and what doesn't.
pub const TABLES: [&str; 3] = [INVERTED_AND_EMPTY, WRITE_RANGE_ALONE, SHOWN];

// An inverted range is refused, and an empty one adds nothing.
const INVERTED_AND_EMPTY: &str = "\
    config proxies 1 logs 1 resolvers m shards - book 100
    ask 0 0
    ask 1 0
    grant 0 > grant 0=0 1=0
    addread 0 b a > refused 2005 InvertedRange
    addread 0 a a
    show 0 > reads writes
    write 0 set z 1
    write 1 set a 1
    submit 1 0
    seal 0 100 > entry 0 version 100 prev 0 places 1
    drive 0 > answer 1=100/0
    submit 0 0
    seal 0 100 > entry 1 version 200 prev 100 places 1
    drive 0 > answer 0=200/0
    end > checked 2
";

// A range that was added to the write set, with no mutation, conflicts with who read in it.
const WRITE_RANGE_ALONE: &str = "\
    config proxies 1 logs 1 resolvers m shards - book 100
    ask 0 0
    ask 1 0
    grant 0 > grant 0=0 1=0
    get 1 b > none
    write 1 set z 1
    addwrite 0 a c
    submit 0 0
    seal 0 100 > entry 0 version 100 prev 0 places 1
    drive 0 > answer 0=100/0
    submit 1 0
    seal 0 100 > entry 1 version 200 prev 100 places 1
    drive 0 > answer 1=1020
    conflict 1 > conflict b:b%00
    get 5 a > refused 9015 NoTransaction
    grant 7 > refused 9016 Unknown
    end > checked 1
";

// A snapshot read adds nothing to the read set, and neither does the read of a key that was set or cleared.
const SHOWN: &str = "\
    config proxies 1 logs 1 resolvers - shards - book 100
    show 0 > refused 9015 NoTransaction
    ask 0 0
    show 0 > refused 9015 NoTransaction
    ask 1 0
    ask 2 0
    grant 0 > grant 0=0 1=0 2=0
    get 0 c > none
    write 0 set a x
    get 0 a > value x
    addread 0 c%00 d
    addwrite 0 b %ff
    show 0 > reads c:d writes a:a%00 b:%ff
    addread 0 % a
    write 0 clearrange a b
    show 0 > reads %:a c:d writes a:%ff
    get 0 a > none
    submit 0 0
    show 0 > refused 9015 NoTransaction
    seal 0 100 > entry 0 version 100 prev 0 places 1
    drive 0 > answer 0=100/0
    sget 1 c > none
    write 1 set c y
    sget 1 c > value y
    show 1 > reads writes c:c%00
    submit 1 0
    addread 2 a b
    show 2 > reads a:b writes
    submit 2 0 > readonly 0
    seal 0 100 > entry 1 version 200 prev 100 places 1
    drive 0 > answer 1=200/0
    end > checked 3
";
