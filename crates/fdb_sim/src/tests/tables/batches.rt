// One batch at a time, and what its clients and those who read after them are told.
pub const TABLES: [&str; 6] = [
    EMPTY,
    FRESHNESS,
    FIRST_PATH,
    ONE_BATCH,
    EQUAL_IS_NOT_NEWER,
    WINDOW,
];

const EMPTY: &str = "\
    config proxies 1 logs 1 resolvers m shards - book 100
    ask 0 0
    grant 0 > grant 0=0
    get 0 a > none
    submit 0 0 > readonly 0
    end > checked 1
";

// The lines of the stored run, less its comments.
pub const FRESHNESS: &str = "\
    config proxies 1 logs 1 resolvers m shards - book 100
    ask 0 0
    grant 0 > grant 0=0
    write 0 set a 1
    submit 0 0
    seal 0 100 > entry 0 version 100 prev 0 places 1
    resolve 0 0 > verdict 0=yes
    resolve 0 1 > verdict
    verdict 0 0
    decide 0 > decided 0=commit
    push 0 0
    logged 0 0
    ask 1 0
    grant 0 > grant 1=0
    report 0 > committed 100
    answer 0 > answer 0=100/0
    ask 2 0
    grant 0 > grant 2=100
    get 2 a > refused 1009 FutureVersion
    pull 0 9 > through 100
    get 2 a > value 1
    get 1 a > none
    submit 2 0 > readonly 100
    submit 1 0 > readonly 0
    end > checked 3
";

// The same with one resolver.
const FIRST_PATH: &str = "\
    config proxies 1 logs 1 resolvers - shards - book 100
    ask 0 0
    grant 0 > grant 0=0
    write 0 set a 1
    submit 0 0
    seal 0 100 > entry 0 version 100 prev 0 places 1
    resolve 0 0 > verdict 0=yes
    verdict 0 0
    decide 0 > decided 0=commit
    push 0 0
    logged 0 0
    ask 1 0
    grant 0 > grant 1=0
    report 0 > committed 100
    answer 0 > answer 0=100/0
    ask 2 0
    grant 0 > grant 2=100
    get 2 a > refused 1009 FutureVersion
    pull 0 9 > through 100
    get 2 a > value 1
    get 1 a > none
    submit 2 0 > readonly 100
    submit 1 0 > readonly 0
    end > checked 3
";

const ONE_BATCH: &str = "\
    config proxies 1 logs 1 resolvers m shards - book 100
    ask 0 0
    ask 1 0
    grant 0 > grant 0=0 1=0
    get 0 a > none
    get 1 a > none
    write 0 set a x
    write 1 set a y
    submit 0 0
    submit 1 0
    seal 0 100 > entry 0 version 100 prev 0 places 2
    resolve 0 0 > verdict 0=yes 1=conflict
    decide 0 > refused 9002 NotYet 0
    verdict 0 0
    decide 0 > decided 0=commit 1=conflict
    push 0 0
    logged 0 0
    answer 0 > refused 9002 NotYet 100
    report 0 > committed 100
    answer 0 > answer 0=100/0 1=1020
    conflict 1 > conflict a:a%00
    end > checked 1
";

const EQUAL_IS_NOT_NEWER: &str = "\
    config proxies 1 logs 1 resolvers m shards - book 100
    ask 0 0
    grant 0 > grant 0=0
    write 0 set a 1
    submit 0 0
    seal 0 100 > entry 0 version 100 prev 0 places 1
    drive 0 > answer 0=100/0
    ask 1 0
    grant 0 > grant 1=100
    pull 0 9 > through 100
    get 1 a > value 1
    write 1 set b 1
    submit 1 0
    seal 0 100 > entry 1 version 200 prev 100 places 1
    drive 0 > answer 1=200/0
    end > checked 2
";

const WINDOW: &str = "\
    config proxies 1 logs 1 resolvers m shards - book 100
    seal 0 100 > entry 0 version 100 prev 0 places 0
    drive 0 > answer
    ask 0 0
    ask 1 0
    ask 2 0
    grant 0 > grant 0=100 1=100 2=100
    pull 0 9 > through 100
    get 0 a > none
    get 1 a > none
    write 0 set b 1
    write 1 set c 1
    write 2 set d 1
    submit 0 0
    seal 0 5000000 > entry 1 version 5000100 prev 100 places 1
    drive 0 > answer 0=5000100/0
    submit 1 0
    submit 2 0
    seal 0 1 > entry 2 version 5000101 prev 5000100 places 2
    drive 0 > answer 1=1007 2=5000101/1
    end > checked 2
";
