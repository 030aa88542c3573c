// A window that is set between steps.
pub const TABLES: [&str; 5] = [
    THE_WINDOW_SHRINKS_AND_GROWS,
    AT_THE_HORIZON,
    MOVED_ABOVE_THE_HORIZON,
    MOVED_AT_THE_HORIZON,
    REFUSED,
];

// The last session is old, though the window grew again.
const THE_WINDOW_SHRINKS_AND_GROWS: &str = "\
    config proxies 1 logs 1 resolvers m shards - book 100
    seal 0 100 > entry 0 version 100 prev 0 places 0
    drive 0 > answer
    ask 0 0
    ask 1 0
    ask 2 0
    grant 0 > grant 0=100 1=100 2=100
    pull 0 9 > through 100
    get 0 a > none
    get 1 a > none
    get 2 a > none
    write 0 set b 1
    write 1 set c 1
    write 2 set d 1
    window 0 > refused 9009 BadConfig
    window 150
    submit 0 0
    seal 0 150 > entry 1 version 250 prev 100 places 1
    drive 0 > answer 0=250/0
    submit 1 0
    seal 0 1 > entry 2 version 251 prev 250 places 1
    drive 0 > answer 1=1007
    window 5000000
    submit 2 0
    seal 0 1 > entry 3 version 252 prev 251 places 1
    drive 0 > answer 2=1007
    end > checked 1
";

// In one batch, who read right below the horizon is old, and who read at it isn't.
const AT_THE_HORIZON: &str = "\
    config proxies 1 logs 1 resolvers m shards - book 100
    seal 0 99 > entry 0 version 99 prev 0 places 0
    drive 0 > answer
    ask 0 0
    grant 0 > grant 0=99
    pull 0 9 > through 99
    get 0 a > none
    seal 0 1 > entry 1 version 100 prev 99 places 0
    drive 0 > answer
    ask 1 0
    grant 0 > grant 1=100
    pull 0 9 > through 100
    get 1 a > none
    write 0 set b 1
    write 1 set c 1
    window 150
    submit 0 0
    submit 1 0
    seal 0 150 > entry 2 version 250 prev 100 places 2
    window 1
    resolve 2 0 > verdict 0=old 1=yes
    resolve 2 1 > verdict
    verdict 2 0
    decide 0 > decided 0=old 1=commit
    end > checked 0
";

// The keys went over at version 200. By a horizon of 198 their former owner is asked about a read of an older version.
const MOVED_ABOVE_THE_HORIZON: &str = "\
    config proxies 1 logs 1 resolvers m shards - book 100
    seal 0 100 > entry 0 version 100 prev 0 places 0
    drive 0 > answer
    ask 0 0
    grant 0 > grant 0=100
    pull 0 9 > through 100
    get 0 p > none
    write 0 set b t
    move m t 0
    seal 0 100 > entry 1 version 200 prev 100 places 0
    drive 0 > answer
    window 3
    submit 0 0
    seal 0 1 > entry 2 version 201 prev 200 places 1
    resolve 2 1 > verdict 0=old
    resolve 2 0 > verdict 0=old
    verdict 2 0
    decide 0 > refused 9002 NotYet 1
    verdict 2 1
    decide 0 > decided 0=old
    end > checked 0
";

// By one of 199 it isn't.
const MOVED_AT_THE_HORIZON: &str = "\
    config proxies 1 logs 1 resolvers m shards - book 100
    seal 0 100 > entry 0 version 100 prev 0 places 0
    drive 0 > answer
    ask 0 0
    grant 0 > grant 0=100
    pull 0 9 > through 100
    get 0 p > none
    write 0 set b t
    move m t 0
    seal 0 100 > entry 1 version 200 prev 100 places 0
    drive 0 > answer
    window 2
    submit 0 0
    seal 0 1 > entry 2 version 201 prev 200 places 1
    resolve 2 1 > verdict
    resolve 2 0 > verdict 0=old
    verdict 2 0
    decide 0 > decided 0=old
    end > checked 0
";

// There are windows of 1 to 5,000,000 versions.
const REFUSED: &str = "\
    config proxies 1 logs 1 resolvers - shards - book 100
    window 0 > refused 9009 BadConfig
    window 5000001 > refused 9009 BadConfig
    window 18446744073709551615 > refused 9009 BadConfig
    window 1
    window 5000000
    end > checked 0
";
