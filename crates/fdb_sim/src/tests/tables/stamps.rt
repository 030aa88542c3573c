// Values with the stamps of their commits, and keys that their own transactions can't read.
pub const TABLES: [&str; 5] = [
    STAMPED,
    HIDDEN_FROM_RANGES,
    HIDDEN_UNTIL_SET_OR_CLEARED,
    OLD_BEFORE_HIDDEN,
    BATCHES,
];

// Two stamps of one batch differ, and a session can't read its own.
const STAMPED: &str = "\
    config proxies 1 logs 1 resolvers m shards - book 100
    ask 0 0
    ask 1 0
    grant 0 > grant 0=0 1=0
    write 0 stamped a x0123456789y 3 > refused 9008 BadOperand
    write 0 stamped a x0123456789y 1
    write 0 set A 1
    get 0 a > refused 1036 AccessedUnreadable
    sget 0 a > refused 1036 AccessedUnreadable
    range 0 A z 0 > refused 1036 AccessedUnreadable
    range 0 A z 1 > pairs 1 A=1
    show 0 > reads writes A:A%00 a:a%00
    write 1 stamped c 0123456789 0
    write 1 stamped d 0123456789 0
    write 1 clear d
    get 1 d > none
    submit 0 0
    submit 1 0
    seal 0 100 > entry 0 version 100 prev 0 places 2
    drive 0 > answer 0=100/0 1=100/1
    ask 2 0
    grant 0 > grant 2=100
    pull 0 9 > through 100
    get 2 a > value x%00%00%00%00%00%00%00d%00%00y
    get 2 c > value %00%00%00%00%00%00%00d%00%01
    end > checked 2
";

// An unreadable key counts as a pair of a range, wherever it stands, and whatever was done to it since.
const HIDDEN_FROM_RANGES: &str = "\
    config proxies 1 logs 1 resolvers m shards - book 100
    ask 0 0
    grant 0 > grant 0=0
    write 0 set b 1
    write 0 set f 2
    write 0 stamped d 0123456789 0
    range 0 a z 1 > pairs 1 b=1
    range 0 a z 2 > refused 1036 AccessedUnreadable
    range 0 a d 0 > pairs 1 b=1
    range 0 d%00 z 0 > pairs 1 f=2
    range 0 d z 1 > refused 1036 AccessedUnreadable
    range 0 a z 1 reverse > pairs 1 f=2
    range 0 a z 2 reverse > refused 1036 AccessedUnreadable
    srange 0 a z 0 > refused 1036 AccessedUnreadable
    write 0 cac d 0123456789
    range 0 a z 0 > refused 1036 AccessedUnreadable
    range 0 a z 2 > refused 1036 AccessedUnreadable
    range 0 c e 1 > refused 1036 AccessedUnreadable
    srange 0 a z 1 > pairs 1 b=1
    show 0 > reads a:b b%00:d d%00:f f%00:z writes b:b%00 d:d%00 f:f%00
    end > checked 0
";

// A set or a clear of the key makes it readable, and nothing else does.
const HIDDEN_UNTIL_SET_OR_CLEARED: &str = "\
    config proxies 1 logs 1 resolvers m shards - book 100
    ask 0 0
    grant 0 > grant 0=0
    write 0 stamped a 0123456789 0
    write 0 add a %01
    get 0 a > refused 1036 AccessedUnreadable
    write 0 max a %01
    sget 0 a > refused 1036 AccessedUnreadable
    write 0 set a 5
    get 0 a > value 5
    write 0 stamped a 0123456789 0
    get 0 a > refused 1036 AccessedUnreadable
    write 0 clear a
    get 0 a > none
    write 0 stamped a 0123456789 0
    write 0 clearrange a b
    get 0 a > none
    write 0 stamped a 0123456789 0
    write 0 stamped a 0123456789x 1
    get 0 a > refused 1036 AccessedUnreadable
    write 0 stamped a 0123456789 1 > refused 9008 BadOperand
    write 0 stamped a 0123456789 4294967295 > refused 9008 BadOperand
    write 0 stamped %ff 0123456789 0 > refused 2004 KeyOutsideLegalRange
    get 0 a > refused 1036 AccessedUnreadable
    show 0 > reads writes a:b
    write 0 stamped a 0123456789 4294967296 > bad line 26
";

// A key that its shard doesn't serve any more is refused for its age, where the own writes don't hide it; a range is
// refused for its age first.
const OLD_BEFORE_HIDDEN: &str = "\
    config proxies 1 logs 1 resolvers - shards - book 100
    ask 0 0
    grant 0 > grant 0=0
    write 0 stamped a 0123456789 0
    seal 0 100 > entry 0 version 100 prev 0 places 0
    drive 0 > answer
    pull 0 9 > through 100
    forget 0 100 > floor 100
    get 0 a > refused 1036 AccessedUnreadable
    get 0 b > refused 1007 TransactionTooOld
    range 0 a b 0 > refused 1007 TransactionTooOld
    end > checked 0
";

// Each batch has its own stamps, also of a place behind one that conflicts, and an operand has its stamp where it says.
const BATCHES: &str = "\
    config proxies 1 logs 2 resolvers m shards c book 100
    ask 0 0
    ask 1 0
    ask 2 0
    grant 0 > grant 0=0 1=0 2=0
    get 1 a > none
    write 0 stamped a 0123456789 0
    write 1 stamped b 0123456789 0
    write 2 stamped c xx0123456789 2
    write 2 stamped d 0123456789 0
    submit 0 0
    submit 1 0
    submit 2 0
    seal 0 258 > entry 0 version 258 prev 0 places 3
    drive 0 > answer 0=258/0 1=1020 2=258/2
    ask 3 0
    grant 0 > grant 3=258
    write 3 stamped a 0123456789 0
    submit 3 0
    seal 0 42 > entry 1 version 300 prev 258 places 1
    drive 0 > answer 3=300/0
    ask 4 0
    grant 0 > grant 4=300
    pull 0 9 > through 300
    pull 1 9 > through 300
    get 4 a > value %00%00%00%00%00%00%01%2c%00%00
    get 4 b > none
    get 4 c > value xx%00%00%00%00%00%00%01%02%00%02
    get 4 d > value %00%00%00%00%00%00%01%02%00%02
    end > checked 3
";
