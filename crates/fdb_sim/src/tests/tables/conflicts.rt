// Conflict sets.
pub const TABLES: [&str; 4] = [
    ONE_KEY_OF_A_RANGE,
    BOTH_RESOLVERS,
    A_PART_OF_EACH_OWNER,
    OLD_HAS_NONE,
];

// Of what was read just the key that was written conflicts, and one who wasn't refused has no set.
const ONE_KEY_OF_A_RANGE: &str = "\
    config proxies 1 logs 1 resolvers - shards - book 100
    conflict 1 > refused 9015 NoTransaction
    ask 0 0
    ask 1 0
    grant 0 > grant 0=0 1=0
    range 1 a d 9 > pairs 0
    get 1 x > none
    write 1 set z 1
    write 0 set b 1
    write 0 set y 1
    submit 0 0
    submit 1 0
    seal 0 100 > entry 0 version 100 prev 0 places 2
    drive 0 > answer 0=100/0 1=1020
    conflict 1 > conflict b:b%00
    conflict 0 > refused 9015 NoTransaction
    conflict 7 > refused 9015 NoTransaction
    end > checked 1
";

// Each of two resolvers finds a key of its own, and the set has both.
const BOTH_RESOLVERS: &str = "\
    config proxies 1 logs 1 resolvers m shards - book 100
    ask 0 0
    ask 1 0
    grant 0 > grant 0=0 1=0
    get 1 a > none
    get 1 z > none
    get 1 b > none
    write 1 set c 1
    write 0 set a 1
    write 0 set z 1
    submit 0 0
    submit 1 0
    seal 0 100 > entry 0 version 100 prev 0 places 2
    resolve 0 0 > verdict 0=yes 1=conflict
    resolve 0 1 > verdict 0=yes 1=conflict
    verdict 0 1
    verdict 0 0
    decide 0 > decided 0=commit 1=conflict
    push 0 0
    logged 0 0
    report 0 > committed 100
    answer 0 > answer 0=100/0 1=1020
    conflict 1 > conflict a:a%00 z:z%00
    end > checked 1
";

// The keys from m to t go over to the first resolver between two writes: each owner of then hands over its part. The
// set is told from the answer on, until the session begins another transaction.
const A_PART_OF_EACH_OWNER: &str = "\
    config proxies 1 logs 1 resolvers m shards - book 100
    seal 0 100 > entry 0 version 100 prev 0 places 0
    drive 0 > answer
    ask 0 0
    ask 1 0
    ask 2 0
    grant 0 > grant 0=100 1=100 2=100
    pull 0 9 > through 100
    get 0 p > none
    get 0 q > none
    write 0 set b t
    write 1 set p u
    write 2 set q v
    submit 1 0
    seal 0 100 > entry 1 version 200 prev 100 places 1
    drive 0 > answer 1=200/0
    move m t 0
    submit 2 0
    seal 0 100 > entry 2 version 300 prev 200 places 1
    drive 0 > answer 2=300/0
    submit 0 0
    seal 0 100 > entry 3 version 400 prev 300 places 1
    resolve 3 0 > verdict 0=conflict
    resolve 3 1 > verdict 0=conflict
    verdict 3 0
    verdict 3 1
    decide 0 > decided 0=conflict
    push 3 0
    logged 3 0
    report 0 > committed 400
    conflict 0 > refused 9015 NoTransaction
    answer 0 > answer 0=1020
    conflict 0 > conflict p:p%00 q:q%00
    ask 0 0
    conflict 0 > conflict p:p%00 q:q%00
    grant 0 > grant 0=400
    conflict 0 > refused 9015 NoTransaction
    end > checked 2
";

const OLD_HAS_NONE: &str = "\
    config proxies 1 logs 1 resolvers - shards - book 100
    seal 0 100 > entry 0 version 100 prev 0 places 0
    drive 0 > answer
    ask 0 0
    ask 1 0
    grant 0 > grant 0=100 1=100
    pull 0 9 > through 100
    get 0 a > none
    write 0 set b 1
    write 1 set a 1
    submit 1 0
    seal 0 5000000 > entry 1 version 5000100 prev 100 places 1
    drive 0 > answer 1=5000100/0
    submit 0 0
    seal 0 1 > entry 2 version 5000101 prev 5000100 places 1
    drive 0 > answer 0=1007
    conflict 0 > refused 9015 NoTransaction
    end > checked 1
";
