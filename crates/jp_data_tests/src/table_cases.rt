//! Data files, and the rows or the refusal that they give.

/// Two number columns.
pub const NUMBERS: &[(&[u8], &str)] = &[
    (b"id,x\n", ""),
    (b"id,x", ""),
    (b"id,x\n1,10\n2,20\n3,\\N\n", "1,10;2,20;3,NULL;"),
    (b"id,x\n\"1\",\"\\N\"", "1,NULL;"),
    (b"id,x\r\n,\"\"\r\n", "NULL,NULL;"),
    (b"\xef\xbb\xbfid,x\n1,2\n", "1,2;"),
    (b"id,x\n+7,-0\n", "7,0;"),
    (
        b"id,x\n9223372036854775807,-9223372036854775808\n",
        "9223372036854775807,-9223372036854775808;",
    ),
    (b"id,x\n0000000000000000000000007,-007\n", "7,-7;"),
    (b"", "Header"),
    (b"\n", "Header"),
    (b"x,id\n1,2\n", "Header"),
    (b"id\n1\n", "Header"),
    (b"id,x,y\n", "Header"),
    (b"ID,x\n", "Header"),
    (b"\xef\xbb\xbf\xef\xbb\xbfid,x\n", "Header"),
    (b"id,x\n1\n", "FieldCount(1, 1)"),
    (b"id,x\n1,2,3\n", "FieldCount(1, 3)"),
    (b"id,x\n1,2\n3", "FieldCount(2, 1)"),
    (b"id,x\n1,2\n\n3,y,z\n", "FieldCount(2, 3)"),
    (b"id,x\n9223372036854775808,0\n", "BadNumber(1, 1)"),
    (b"id,x\n0,-9223372036854775809\n", "BadNumber(1, 2)"),
    (b"id,x\n18446744073709551617,0\n", "BadNumber(1, 1)"),
    (b"id,x\n+,0\n", "BadNumber(1, 1)"),
    (b"id,x\n0,-\n", "BadNumber(1, 2)"),
    (b"id,x\n+-1,0\n", "BadNumber(1, 1)"),
    (b"id,x\n0,--1\n", "BadNumber(1, 2)"),
    (b"id,x\n1.0,0\n", "BadNumber(1, 1)"),
    (b"id,x\n 1,0\n", "BadNumber(1, 1)"),
    (b"id,x\n\\n,0\n", "BadNumber(1, 1)"),
    (b"id,x\n1,2\n0,\xff\n", "BadNumber(2, 2)"),
    (b"id,x\nNULL,0\n", "BadNumber(1, 1)"),
    (b"id,x\ny,z\n1\n", "BadNumber(1, 1)"),
];

/// A boolean column and a text column.
pub const WORDS: &[(&[u8], &str)] = &[
    (
        b"ok,name\nt,a\nf,b\ntrue,c\nfalse,d\n",
        "true,'a';false,'b';true,'c';false,'d';",
    ),
    (
        b"ok,name\n,\n\\N,\\N\n\"\",\"\"\n",
        "NULL,'';NULL,NULL;NULL,'';",
    ),
    (b"ok,name\n\"\\N\",\"\\N\"\n", "NULL,NULL;"),
    (
        b"ok,name\nt,\"a,b\"\nt,\"say \"\"hi\"\"\"\nt,\"two\nlines\"\r\nt,\"cr\r\nlf\"\n",
        "true,'a,b';true,'say \"hi\"';true,'two\nlines';true,'cr\r\nlf';",
    ),
    (
        b"ok,name\nf,\xc3\xa9\xe2\x82\xac\nt,x\n",
        "false,'\u{e9}\u{20ac}';true,'x';",
    ),
    (b"ok,name\nt, a \nt,\\n\n", "true,' a ';true,'\\n';"),
    (b"ok,name\nTRUE,a\n", "BadBool(1, 1)"),
    (b"ok,name\nt,a\nyes,b\n", "BadBool(2, 1)"),
    (b"ok,name\n1,a\n", "BadBool(1, 1)"),
    (b"ok,name\n t,a\n", "BadBool(1, 1)"),
    (b"ok,name\n\xff,a\n", "BadBool(1, 1)"),
    (b"ok,name\nt,\xff\n", "NotUtf8(1, 2)"),
    (b"ok,name\nt,a\nt,\xc3\n", "NotUtf8(2, 2)"),
    (b"ok,name\nt,a\nx,\xc3\n", "BadBool(2, 1)"),
];

/// Columns id, a and b with the primary key id and the unique keys a and (a, b), of which a is a text.
pub const KEYED: &[(&[u8], &str)] = &[
    (b"id,a,b\n1,x,1\n2,y,1\n", "1,'x',1;2,'y',1;"),
    (b"id,a,b\n,x,1\n", "NullInKey(1)"),
    (b"id,a,b\n1,x,1\n\\N,x,1\n", "NullInKey(2)"),
    (b"id,a,b\n1,\\N,1\n2,\\N,1\n", "1,NULL,1;2,NULL,1;"),
    (b"id,a,b\n1,,1\n2,,2\n", "KeyRepeated(1, 2)"),
    (b"id,a,b\n1,x,1\n2,y,1\n1,z,1\n", "KeyRepeated(1, 3)"),
    (b"id,a,b\n1,x,1\n2,y,1\n2,x,1\n", "KeyRepeated(2, 3)"),
    (b"id,a,b\n1,x,1\n2,y,1\n3,y,2\n3,z,3\n", "KeyRepeated(2, 3)"),
    (b"id,a,b\n1,x,1\n1,y,1\n1,z,1\n", "KeyRepeated(1, 2)"),
    (b"id,a,b\n1,x,1\n1,y,z\n", "BadNumber(2, 3)"),
    (b"id,a,b\n1,x,1\n1,y,1\n2,z,z\n", "KeyRepeated(1, 2)"),
    (b"id,a,b\n1,x,1\n2,y\n1,z,1\n", "FieldCount(2, 2)"),
    (b"id,a,b\n1,x,1\n01,z,1\n", "KeyRepeated(1, 2)"),
];

/// Columns a and b with the unique keys (a, b) and (b).
pub const PAIRS: &[(&[u8], &str)] = &[
    (b"a,b\n1,1\n1,2\n2,3\n", "1,1;1,2;2,3;"),
    (b"a,b\n1,\n1,\n", "1,NULL;1,NULL;"),
    (b"a,b\n,1\n,2\n", "NULL,1;NULL,2;"),
    (b"a,b\n1,1\n2,1\n", "KeyRepeated(1, 2)"),
    (b"a,b\n1,3\n5,4\n5,3\n", "KeyRepeated(1, 3)"),
    (b"a,b\n\\N,4\n7,5\n7,5\n", "KeyRepeated(2, 3)"),
];

/// Columns a and b with the unique keys b and a.
pub const EITHER: &[(&[u8], &str)] = &[
    (b"a,b\n1,1\n2,2\n2,1\n", "KeyRepeated(1, 3)"),
    (b"a,b\n1,1\n2,2\n2,\n", "KeyRepeated(2, 3)"),
];
