// Scripts with several logs and shards, and what a shard forgets and drops.
pub const TABLES: [&str; 3] = [FORGETTING, TWO_LOGS_AND_SHARDS, TWO_LOGS_BY_STEPS];

const FORGETTING: &str = "\
    config proxies 1 logs 1 resolvers m shards - book 100
    ask 0 0
    grant 0 > grant 0=0
    write 0 set a 1
    submit 0 0
    seal 0 100 > entry 0 version 100 prev 0 places 1
    drive 0 > answer 0=100/0
    ask 0 0
    grant 0 > grant 0=100
    seal 0 199 > entry 1 version 299 prev 100 places 0
    drive 0 > answer
    ask 1 0
    grant 0 > grant 1=299
    write 0 set a 3
    submit 0 0
    seal 0 1 > entry 2 version 300 prev 299 places 1
    drive 0 > answer 0=300/0
    ask 2 0
    grant 0 > grant 2=300
    pull 0 9 > through 300
    forget 0 301 > refused 1009 FutureVersion
    forget 0 300 > floor 300
    get 1 a > refused 1007 TransactionTooOld
    get 2 a > value 3
    end > checked 2
";

pub const TWO_LOGS_AND_SHARDS: &str = "\
    config proxies 1 logs 2 resolvers m shards m book 100
    ask 0 0
    grant 0 > grant 0=0
    write 0 set a 1
    write 0 set z 2
    submit 0 0
    seal 0 100 > entry 0 version 100 prev 0 places 1
    drive 0 > answer 0=100/0
    ask 1 0
    grant 0 > grant 1=100
    write 1 clearrange a n
    submit 1 0
    seal 0 100 > entry 1 version 200 prev 100 places 1
    drive 0 > answer 1=200/0
    ask 2 0
    grant 0 > grant 2=200
    pull 0 9 > through 200
    range 2 a %ff 0 > refused 1009 FutureVersion
    pull 1 1 > through 100
    pull 1 9 > through 200
    range 2 a %ff 0 > pairs 1 z=2
    pop 1 > popped 200
    pull 1 9 > through 200
    end > checked 2
";

// A batch is logged once both logs have it, in either order. A shard that took no message pops nothing. A floor never
// falls.
const TWO_LOGS_BY_STEPS: &str = "\
    config proxies 1 logs 2 resolvers - shards m book 100
    seal 0 100 > entry 0 version 100 prev 0 places 0
    resolve 0 0 > verdict
    verdict 0 0
    decide 0 > decided
    push 0 1
    logged 0 1
    report 0 > refused 9002 NotYet 0
    push 0 2 > refused 9016 Unknown
    push 0 0
    report 0 > refused 9002 NotYet 0
    logged 0 0
    report 0 > committed 100
    answer 0 > answer
    pull 1 0 > through 0
    pop 1 > popped 0
    pull 1 1 > through 100
    pull 2 1 > refused 9016 Unknown
    forget 1 50 > floor 50
    forget 1 0 > floor 50
    forget 2 0 > refused 9016 Unknown
    pop 2 > refused 9016 Unknown
    end > checked 0
";
