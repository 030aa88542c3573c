// Batches that are driven.
pub const TABLES: [&str; 2] = [DRIVES_REFUSED, DRIVES_OF_MANY];

// The drive that comes after a step of its own ends at that step's refusal, and takes none of those after.
const DRIVES_REFUSED: &str = "\
    config proxies 1 logs 1 resolvers - shards - book 100
    drive 0 > refused 9014 WrongState
    drive 7 > refused 9016 Unknown
    seal 0 100 > entry 0 version 100 prev 0 places 0
    drive 4294967295 > refused 9016 Unknown
    drive 0 > answer
    drive 0 > refused 9014 WrongState
    seal 0 100 > entry 1 version 200 prev 100 places 0
    resolve 1 0 > verdict
    drive 0 > refused 9003 Stale
    verdict 1 0
    decide 0 > decided
    end > checked 0
";

// A drive goes over three resolvers and two logs. It can't begin while a resolver lacks an entry before, and takes no
// step then.
const DRIVES_OF_MANY: &str = "\
    config proxies 2 logs 2 resolvers g,p shards m book 100
    ask 0 1
    grant 1 > grant 0=0
    write 0 set a 1
    write 0 set z 2
    submit 0 1
    seal 0 100 > entry 0 version 100 prev 0 places 0
    seal 1 100 > entry 1 version 200 prev 100 places 1
    drive 1 > refused 9002 NotYet 100
    drive 0 > answer
    resolve 0 2 > refused 9003 Stale
    push 0 1 > refused 9003 Stale
    resolve 1 3 > refused 9016 Unknown
    drive 1 > answer 0=200/0
    verdict 1 2 > refused 9003 Stale
    logged 1 1 > refused 9003 Stale
    logged 1 2 > refused 9016 Unknown
    drive 1 > refused 9014 WrongState
    drive 2 > refused 9016 Unknown
    ask 0 0
    grant 0 > grant 0=200
    pull 0 9 > through 200
    pull 1 9 > through 200
    range 0 a %ff 0 > pairs 2 a=1 z=2
    end > checked 1
";
