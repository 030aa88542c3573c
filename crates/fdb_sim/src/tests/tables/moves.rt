// Keys that go over from one resolver to another.
pub const TABLES: [&str; 6] = [
    FORMER_OWNER,
    THERE_AND_BACK,
    MOVED_FIRST,
    THE_SPAN_BEGINS_AT_THE_WINDOW,
    TWO_MOVES_IN_ONE_ENTRY,
    REFUSED,
];

// A read is asked of the resolver that owned the key between the read version and the move.
const FORMER_OWNER: &str = "\
    config proxies 1 logs 1 resolvers m shards - book 100
    seal 0 100 > entry 0 version 100 prev 0 places 0
    drive 0 > answer
    ask 0 0
    ask 1 0
    grant 0 > grant 0=100 1=100
    pull 0 9 > through 100
    get 0 p > none
    write 1 set p u
    write 0 set b t
    submit 1 0
    seal 0 100 > entry 1 version 200 prev 100 places 1
    drive 0 > answer 1=200/0
    move m t 0
    submit 0 0
    seal 0 100 > entry 2 version 300 prev 200 places 1
    resolve 2 0 > verdict 0=yes
    resolve 2 1 > verdict 0=conflict
    verdict 2 0
    decide 0 > refused 9002 NotYet 1
    verdict 2 1
    decide 0 > decided 0=conflict
    end > checked 1
";

// A read is asked of each owner of the span, also of one between two others.
pub const THERE_AND_BACK: &str = "\
    config proxies 1 logs 1 resolvers m shards - book 100
    seal 0 100 > entry 0 version 100 prev 0 places 0
    drive 0 > answer
    ask 0 0
    ask 1 0
    grant 0 > grant 0=100 1=100
    pull 0 9 > through 100
    get 0 p > none
    write 1 set p u
    write 0 set b t
    seal 0 100 > entry 1 version 200 prev 100 places 0
    drive 0 > answer
    move m t 0
    submit 1 0
    seal 0 100 > entry 2 version 300 prev 200 places 1
    drive 0 > answer 1=300/0
    move m t 1
    seal 0 100 > entry 3 version 400 prev 300 places 0
    drive 0 > answer
    submit 0 0
    seal 0 100 > entry 4 version 500 prev 400 places 1
    resolve 4 0 > verdict 0=conflict
    resolve 4 1 > verdict 0=yes
    end > checked 1
";

// A move reaches each proxy with that one's own next ticket.
const MOVED_FIRST: &str = "\
    config proxies 2 logs 1 resolvers m shards - book 100
    move a c 1
    seal 0 100 > entry 0 version 100 prev 0 places 0
    drive 0 > answer
    ask 0 1
    grant 1 > grant 0=100
    write 0 set a x
    submit 0 1
    seal 1 100 > entry 1 version 200 prev 100 places 1
    resolve 1 0 > verdict
    resolve 1 1 > verdict 0=yes
    verdict 1 1
    decide 1 > decided 0=commit
    end > checked 0
";

// The span of a read begins with the window where the read version lies below it: who owned the key before isn't asked.
const THE_SPAN_BEGINS_AT_THE_WINDOW: &str = "\
    config proxies 1 logs 1 resolvers m shards - book 100
    seal 0 100 > entry 0 version 100 prev 0 places 0
    drive 0 > answer
    ask 0 0
    grant 0 > grant 0=100
    pull 0 9 > through 100
    get 0 p > none
    write 0 set b t
    move m t 0
    seal 0 100 > entry 1 version 200 prev 100 places 0
    drive 0 > answer
    seal 0 5000000 > entry 2 version 5000200 prev 200 places 0
    drive 0 > answer
    submit 0 0
    seal 0 1 > entry 3 version 5000201 prev 5000200 places 1
    resolve 3 1 > verdict
    resolve 3 0 > verdict 0=old
    verdict 3 0
    decide 0 > decided 0=old
    push 3 0
    logged 3 0
    report 0 > committed 5000201
    answer 0 > answer 0=1007
    end > checked 0
";

// Of two moves of one entry the later one counts where their ranges overlap.
const TWO_MOVES_IN_ONE_ENTRY: &str = "\
    config proxies 1 logs 1 resolvers m shards - book 100
    move a z 1
    move c f 0
    seal 0 100 > entry 0 version 100 prev 0 places 0
    drive 0 > answer
    ask 0 0
    ask 1 0
    grant 0 > grant 0=100 1=100
    pull 0 9 > through 100
    write 0 set b 1
    write 0 set d 1
    get 1 d > none
    write 1 set e 1
    submit 0 0
    seal 0 100 > entry 1 version 200 prev 100 places 1
    resolve 1 0 > verdict 0=yes
    resolve 1 1 > verdict 0=yes
    decide 0 > refused 9002 NotYet 0
    verdict 1 0
    decide 0 > refused 9002 NotYet 1
    verdict 1 1
    decide 0 > decided 0=commit
    push 1 0
    logged 1 0
    report 0 > committed 200
    answer 0 > answer 0=200/0
    submit 1 0
    seal 0 100 > entry 2 version 300 prev 200 places 1
    resolve 2 1 > verdict
    resolve 2 0 > verdict 0=conflict
    verdict 2 0
    decide 0 > decided 0=conflict
    end > checked 1
";

const REFUSED: &str = "\
    config proxies 1 logs 1 resolvers m shards - book 100
    move a c 2 > refused 9009 BadConfig
    move b b 1 > refused 9009 BadConfig
    move c b 1 > refused 2005 InvertedRange
    move %ff%00 z 1 > refused 2004 KeyOutsideLegalRange
    move a c 1
    move a > bad line 7
";
