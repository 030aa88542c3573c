// Two resolvers, of which the second owns the keys from m on.
pub const TABLES: [&str; 3] = [WRITE_SKEW, FALSE_CONFLICT, ORDER_AND_REPEATS];

pub const WRITE_SKEW: &str = "\
    config proxies 1 logs 1 resolvers m shards - book 100
    ask 0 0
    ask 1 0
    grant 0 > grant 0=0 1=0
    get 0 a > none
    get 1 z > none
    write 0 set z t
    write 1 set a u
    submit 0 0
    seal 0 100 > entry 0 version 100 prev 0 places 1
    drive 0 > answer 0=100/0
    ask 2 0
    grant 0 > grant 2=100
    pull 0 9 > through 100
    get 2 a > none
    write 2 set b v
    submit 1 0
    seal 0 100 > entry 1 version 200 prev 100 places 1
    resolve 1 0 > verdict 0=yes
    resolve 1 1 > verdict 0=conflict
    verdict 1 0
    verdict 1 1
    decide 0 > decided 0=conflict
    push 1 0
    logged 1 0
    report 0 > committed 200
    answer 0 > answer 1=1020
    conflict 1 > conflict z:z%00
    end > checked 1
";

// Who was refused by one resolver alone has left a mark at the other one.
const FALSE_CONFLICT: &str = "\
    config proxies 1 logs 1 resolvers m shards - book 100
    ask 0 0
    ask 1 0
    grant 0 > grant 0=0 1=0
    get 0 a > none
    get 1 z > none
    write 0 set z t
    write 1 set a u
    submit 0 0
    seal 0 100 > entry 0 version 100 prev 0 places 1
    drive 0 > answer 0=100/0
    ask 2 0
    grant 0 > grant 2=100
    pull 0 9 > through 100
    get 2 a > none
    write 2 set b v
    submit 1 0
    seal 0 100 > entry 1 version 200 prev 100 places 1
    resolve 1 0 > verdict 0=yes
    resolve 1 1 > verdict 0=conflict
    verdict 1 0
    verdict 1 1
    decide 0 > decided 0=conflict
    push 1 0
    logged 1 0
    report 0 > committed 200
    answer 0 > answer 1=1020
    submit 2 0
    seal 0 100 > entry 2 version 300 prev 200 places 1
    drive 0 > answer 2=1020
    conflict 2 > conflict a:a%00
    conflict 0 > refused 9015 NoTransaction
    end > checked 1
";

const ORDER_AND_REPEATS: &str = "\
    config proxies 2 logs 1 resolvers m shards - book 100
    ask 0 0
    ask 1 1
    grant 0 > grant 0=0
    grant 1 > grant 1=0
    write 0 set a x
    write 1 set b y
    submit 0 0
    submit 1 1
    seal 0 100 > entry 0 version 100 prev 0 places 1
    seal 1 100 > entry 1 version 200 prev 100 places 1
    seal 0 1 > refused 9014 WrongState
    resolve 1 0 > refused 9002 NotYet 100
    resolve 0 0 > verdict 0=yes
    resolve 1 0 > verdict 0=yes
    resolve 0 0 > refused 9003 Stale
    push 1 0 > refused 9016 Unknown
    verdict 1 0
    decide 1 > decided 0=commit
    push 1 0 > refused 9002 NotYet 100
    end > checked 0
";
