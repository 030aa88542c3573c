// Writes of every kind, and what they come to one after another.
pub const TABLES: [&str; 2] = [IN_ORDER, EVERY_KIND];

// Two sessions add to one key and flip bits of it, and read nothing.
const IN_ORDER: &str = "\
    config proxies 1 logs 1 resolvers m shards - book 100
    ask 0 0
    grant 0 > grant 0=0
    write 0 set a %01
    submit 0 0
    seal 0 100 > entry 0 version 100 prev 0 places 1
    drive 0 > answer 0=100/0
    ask 1 0
    ask 2 0
    grant 0 > grant 1=100 2=100
    write 1 add a %ff
    write 2 xor a %03
    submit 1 0
    submit 2 0
    seal 0 100 > entry 1 version 200 prev 100 places 2
    drive 0 > answer 1=200/0 2=200/1
    ask 3 0
    grant 0 > grant 3=200
    pull 0 9 > through 200
    get 3 a > value %03
    end > checked 3
";

// A session writes by every kind of mutation, and reads what it wrote.
const EVERY_KIND: &str = "\
    config proxies 1 logs 1 resolvers - shards - book 100
    ask 0 0
    grant 0 > grant 0=0
    write 0 set b %07
    write 0 clearrange a c
    get 0 b > none
    write 0 or b %0f%f0
    write 0 and b %3c
    get 0 b > value %0c
    write 0 max b %0d
    write 0 min b %0b
    write 0 bytemax b %0b%00
    write 0 bytemin b %0b%01
    get 0 b > value %0b%00
    write 0 cac b %0b%00
    get 0 b > none
    write 0 add b % > refused 9008 BadOperand
    write 0 clearrange c a > refused 2005 InvertedRange
    write 0 clearrange a %ff%00 > refused 2004 KeyOutsideLegalRange
    write 0 cac %ff x > refused 2004 KeyOutsideLegalRange
    write 0 clearrange c > bad line 21
";
