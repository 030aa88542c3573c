// What sessions are told that compete, or that don't do what comes next.
pub const TABLES: [&str; 2] = [CONFLICT, SESSIONS];

// The lines of examples/conflict.txt, and what they print.
const CONFLICT: &str = "\
    # Two sessions read one key at the same version and both write it: the second commit is refused.
    config proxies 1 logs 1 resolvers - shards - book 100
    ask 0 0
    ask 1 0
    grant 0 > grant 0=0 1=0
    get 0 a > none
    get 1 a > none
    write 0 set a x
    write 1 set a y

    # The first one commits at version 100.
    submit 0 0
    seal 0 100 > entry 0 version 100 prev 0 places 1
    resolve 0 0 > verdict 0=yes
    verdict 0 0
    decide 0 > decided 0=commit
    push 0 0
    logged 0 0
    report 0 > committed 100
    answer 0 > answer 0=100/0

    # The second one read at 0 what was written at 100.
    submit 1 0
    seal 0 100 > entry 1 version 200 prev 100 places 1
    resolve 1 0 > verdict 0=conflict
    verdict 1 0
    decide 0 > decided 0=conflict
    push 1 0
    logged 1 0
    report 0 > committed 200
    answer 0 > answer 1=1020

    # It tries again, and reads what the first one wrote.
    ask 1 0
    grant 0 > grant 1=200
    pull 0 9 > through 200
    get 1 a > value x
    end > checked 1
";

// A session asks once, has a transaction open until it asks again or submits, and waits until it is answered.
const SESSIONS: &str = "\
    config proxies 1 logs 1 resolvers - shards - book 100
    get 0 a > refused 9015 NoTransaction
    ask 0 0
    ask 0 0 > refused 9014 WrongState
    get 0 a > refused 9015 NoTransaction
    grant 0 > grant 0=0
    write 0 set a x
    ask 0 0
    submit 0 0 > refused 9015 NoTransaction
    grant 0 > grant 0=0
    get 0 a > none
    write 0 set a y
    submit 0 0
    ask 0 0 > refused 9014 WrongState
    submit 0 0 > refused 9015 NoTransaction
    seal 0 100 > entry 0 version 100 prev 0 places 1
    ask 0 0 > refused 9014 WrongState
    drive 0 > answer 0=100/0
    ask 0 0
    grant 0 > grant 0=100
    submit 0 0 > readonly 100
    write 0 set a z > refused 9015 NoTransaction
    ask 0 0
    end > checked 2
";
