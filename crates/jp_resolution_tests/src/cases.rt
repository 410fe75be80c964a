// Statements over small catalogues, each with the names of its outputs or with its refusal and place. They come from an
// independent model of the rules.

pub const NUMBERS_CATALOGUE: &str =
    "version = 1\n[tables.a]\nfile = \"a.csv\"\nrows = 100\ncolumns = [{name = \"id\", type = \"number\"}, {name = \"x\", type = \"number\"}]\nprimary_key = [\"id\"]\n[tables.b]\nfile = \"b.csv\"\nrows = 1000\ncolumns = [{name = \"id\", type = \"number\"}, {name = \"aid\", type = \"number\"}, {name = \"y\", type = \"number\"}]\nprimary_key = [\"id\"]\n[tables.c]\nfile = \"c.csv\"\nrows = 10\ncolumns = [{name = \"id\", type = \"number\"}, {name = \"bid\", type = \"number\"}, {name = \"z\", type = \"number\"}]\nprimary_key = [\"id\"]\nunique = [[\"bid\"]]\n[tables.d]\nfile = \"d.csv\"\nrows = 20\ncolumns = [{name = \"v\", type = \"number\"}]\n";

pub const NUMBERS: &[(&str, &str)] = &[
    ("SELECT\tid\r\nFROM\ta\nWHERE x\r=\n10", "accepted id"),
    ("  \n SELECT id FROM a;  \n", "accepted id"),
    ("select ID from A wHeRe X>=10;", "accepted id"),
    ("SELECT id,x FROM a WHERE(x)=(10)AND(id)<3", "accepted id,x"),
    (
        "SELECT id -- the key; not \"open, not 'open\nFROM a -- end",
        "accepted id",
    ),
    (
        "/* one /* two */ still one */ SELECT id/**/FROM/* a * / */a",
        "accepted id",
    ),
    ("SELECT id FROM a WHERE x = 10--", "accepted id"),
    ("SELECT a.id--1\n, a.x FROM a WHERE id = 1", "accepted id,x"),
    (
        "SELECT id - -1 AS n FROM a WHERE id = 1 /* - -1 needs its space */",
        "accepted n",
    ),
    ("SELECT id FROM a WHERE x<>20 AND id!=1", "accepted id"),
    ("SELECT id FROM a WHERE id<=2 OR(id)>=4", "accepted id"),
    (
        "SELECT-id AS m,+x AS p,id*-1 AS q FROM a WHERE id=1",
        "accepted m,p,q",
    ),
    (
        "SELECT id, x = 10, x <> 10, x < 20, x <= 10, x > 10, x >= 20 FROM a",
        "accepted id,?column?,?column?,?column?,?column?,?column?,?column?",
    ),
    (
        "SELECT a.id, b.id FROM a, b WHERE a.id < b.aid AND b.y <= 6",
        "accepted id,id",
    ),
    ("SELECT id FROM a WHERE x = id * 10", "accepted id"),
    ("SELECT id FROM a WHERE (x = 10) = (id = 1)", "accepted id"),
    ("SELECT id FROM a WHERE x = 10 IS TRUE", "accepted id"),
    ("SELECT id FROM a WHERE (x IS NULL) = FALSE", "accepted id"),
    (
        "SELECT id - 1 - 1 AS a, id - (1 - 1) AS b, -id + 3 AS c, - (id + 3) AS d FROM a",
        "accepted a,b,c,d",
    ),
    (
        "SELECT id + x * 2 AS a, (id + x) * 2 AS b, x * id - 2 AS c, -x * -id AS d FROM a",
        "accepted a,b,c,d",
    ),
    ("SELECT +id FROM a ORDER BY 1", "accepted ?column?"),
    (
        "SELECT 2 - -3 AS a, 2 * -3 AS b, -(-3) AS c FROM d WHERE v = 2",
        "accepted a,b,c",
    ),
    (
        "SELECT id, x + NULL AS a, NULL * 0 AS b, -(NULL) AS c FROM a WHERE id = 1",
        "accepted id,a,b,c",
    ),
    (
        "SELECT a.x * b.y AS p FROM a, b WHERE a.id = b.id",
        "accepted p",
    ),
    ("SELECT id FROM a WHERE x BETWEEN 10 AND 15", "accepted id"),
    (
        "SELECT id FROM a WHERE x NOT BETWEEN 10 AND 15",
        "accepted id",
    ),
    ("SELECT id FROM a WHERE x BETWEEN 20 AND 10", "accepted id"),
    ("SELECT id, 5 BETWEEN id AND x AS b FROM a", "accepted id,b"),
    (
        "SELECT id, x BETWEEN 11 AND NULL AS b, x BETWEEN NULL AND 11 AS c FROM a",
        "accepted id,b,c",
    ),
    (
        "SELECT id FROM a WHERE x BETWEEN 1 AND 10 AND id BETWEEN 2 AND 9",
        "accepted id",
    ),
    (
        "SELECT id FROM a WHERE id BETWEEN 1 + 1 AND 2 * 2 OR x = 10",
        "accepted id",
    ),
    (
        "SELECT id FROM a WHERE x BETWEEN 1 AND 10 = TRUE",
        "accepted id",
    ),
    (
        "SELECT id FROM a WHERE FALSE = x BETWEEN 1 AND 10",
        "accepted id",
    ),
    ("SELECT id FROM a WHERE x IN (10)", "accepted id"),
    ("SELECT id FROM a WHERE x IN (10, NULL)", "accepted id"),
    ("SELECT id FROM a WHERE x NOT IN (10, NULL)", "accepted id"),
    ("SELECT id FROM a WHERE x NOT IN (10, 30)", "accepted id"),
    (
        "SELECT id FROM a WHERE id + 1 IN (x, 2, id * 2)",
        "accepted id",
    ),
    (
        "SELECT id, x IN (20, 10) AS a, x IN (NULL, 1) AS b FROM a",
        "accepted id,a,b",
    ),
    ("SELECT id FROM a WHERE NULL IN (1, 2)", "accepted id"),
    (
        "SELECT id FROM a WHERE x IN (10, 20) = (id < 2)",
        "accepted id",
    ),
    ("SELECT id FROM a WHERE NOT x IN (10)", "accepted id"),
    (
        "SELECT id, CASE WHEN x > 10 THEN 1 WHEN x = 10 THEN 2 ELSE 3 END AS k FROM a",
        "accepted id,k",
    ),
    (
        "SELECT id, CASE WHEN x > 10 THEN x END AS k FROM a",
        "accepted id,k",
    ),
    (
        "SELECT id, CASE WHEN NULL THEN 'a' WHEN x IS NULL THEN 'none' ELSE 'some' END AS k FROM a",
        "accepted id,k",
    ),
    (
        "SELECT id, CASE WHEN x = 10 THEN CASE WHEN id > 1 THEN 5 ELSE 6 END ELSE -x END AS k FROM a",
        "accepted id,k",
    ),
    (
        "SELECT id FROM a WHERE CASE WHEN x = 10 THEN id > 1 ELSE x IS NULL END",
        "accepted id",
    ),
    (
        "SELECT CASE WHEN TRUE THEN NULL ELSE NULL END AS k FROM a WHERE id = 1",
        "accepted k",
    ),
    (
        "SELECT id, CASE x WHEN 10 THEN 1 WHEN 20 THEN 2 END AS k FROM a",
        "accepted id,k",
    ),
    (
        "SELECT id, CASE x WHEN NULL THEN 1 ELSE 2 END AS k FROM a",
        "accepted id,k",
    ),
    (
        "SELECT id, CASE NULL WHEN x THEN 1 ELSE 2 END AS k FROM a",
        "accepted id,k",
    ),
    (
        "SELECT id, CASE id WHEN x THEN 'x' WHEN id * 1 THEN 'id' ELSE 'no' END AS k FROM a",
        "accepted id,k",
    ),
    (
        "SELECT id, CASE x = 10 WHEN TRUE THEN 1 WHEN FALSE THEN 0 ELSE -1 END AS k FROM a",
        "accepted id,k",
    ),
    (
        "SELECT CASE 'a' WHEN 'b' THEN 1 WHEN 'a' THEN 2 END AS k FROM a WHERE id = 1",
        "accepted k",
    ),
    ("SELECT id, COALESCE(x, -1) AS k FROM a", "accepted id,k"),
    (
        "SELECT id, COALESCE(x) AS k, COALESCE(NULL, x, id) AS m FROM a",
        "accepted id,k,m",
    ),
    (
        "SELECT id FROM a WHERE COALESCE(x, id, 0) = id",
        "accepted id",
    ),
    (
        "SELECT id FROM a WHERE COALESCE(x > 10, TRUE)",
        "accepted id",
    ),
    (
        "SELECT COALESCE(NULL, NULL) AS k FROM a WHERE id = 1",
        "accepted k",
    ),
    (
        "SELECT COALESCE(NULL, 'a') || 'b' AS k FROM a WHERE id = 1",
        "accepted k",
    ),
    (
        "SELECT COALESCE(COALESCE(x, NULL), 4) + 1 AS k FROM a",
        "accepted k",
    ),
    ("SELECT a.id, b.id FROM a, b", "accepted id,id"),
    ("SELECT a.id, d.v FROM a CROSS JOIN d", "accepted id,v"),
    (
        "SELECT a.id, b.id, c.id FROM a, b CROSS JOIN c WHERE a.id = b.aid AND c.bid = b.id",
        "accepted id,id,id",
    ),
    (
        "SELECT x.id, y.id FROM a x, a y WHERE x.x = y.x AND x.id <> y.id",
        "accepted id,id",
    ),
    (
        "SELECT a.id, b.id, d.v FROM a JOIN b ON a.id = b.aid, d WHERE d.v = a.id",
        "accepted id,id,v",
    ),
    (
        "SELECT a.id, b.id FROM a JOIN b ON a.id = b.aid",
        "accepted id,id",
    ),
    (
        "SELECT a.id, b.id FROM a INNER JOIN b ON a.id = b.aid AND b.y > 5",
        "accepted id,id",
    ),
];

pub const MORE_NUMBERS: &[(&str, &str)] = &[
    (
        "SELECT a.id, b.id, c.z FROM a JOIN b ON a.id = b.aid JOIN c ON c.bid = b.id",
        "accepted id,id,z",
    ),
    (
        "SELECT a.id, b.id FROM a JOIN b ON TRUE WHERE a.id = 1",
        "accepted id,id",
    ),
    (
        "SELECT a.id, b.id FROM a JOIN b ON a.id > b.id OR b.y IS NULL",
        "accepted id,id",
    ),
    (
        "SELECT id, aid FROM (SELECT id AS i FROM a) s JOIN b ON i = id",
        "accepted id,aid",
    ),
    (
        "SELECT a.id, b.id FROM a LEFT JOIN b ON a.id = b.aid",
        "accepted id,id",
    ),
    (
        "SELECT a.id, b.id FROM a LEFT OUTER JOIN b ON a.id = b.aid AND a.x = 10",
        "accepted id,id",
    ),
    (
        "SELECT a.id, b.id FROM a LEFT JOIN b ON a.id = b.aid AND b.y = 6",
        "accepted id,id",
    ),
    (
        "SELECT a.id, b.id FROM a LEFT JOIN b ON a.id = b.aid WHERE b.y IS NULL",
        "accepted id,id",
    ),
    (
        "SELECT a.id, b.id, c.z FROM a LEFT JOIN b ON a.id = b.aid LEFT JOIN c ON b.id = c.bid",
        "accepted id,id,z",
    ),
    (
        "SELECT a.id, b.id, c.z FROM a LEFT JOIN b ON a.id = b.aid LEFT JOIN c ON COALESCE(b.id, 1) = c.bid",
        "accepted id,id,z",
    ),
    (
        "SELECT a.id, b.id FROM a LEFT JOIN b ON FALSE",
        "accepted id,id",
    ),
    (
        "SELECT a.id, b.id FROM a LEFT JOIN b ON b.y > 100 OR a.id = 3",
        "accepted id,id",
    ),
    (
        "SELECT a.id, b.id FROM a RIGHT JOIN b ON a.id = b.aid",
        "accepted id,id",
    ),
    (
        "SELECT a.id, b.id FROM b RIGHT OUTER JOIN a ON a.id = b.aid",
        "accepted id,id",
    ),
    (
        "SELECT * FROM b RIGHT JOIN a ON a.id = b.aid AND a.x = 10",
        "accepted id,aid,y,id,x",
    ),
    (
        "SELECT a.id, b.id, c.id FROM a RIGHT JOIN b ON a.id = b.aid RIGHT JOIN c ON c.bid = b.id",
        "accepted id,id,id",
    ),
    (
        "SELECT a.id, b.id, d.v FROM a LEFT JOIN b ON a.id = b.aid RIGHT JOIN d ON d.v = a.id",
        "accepted id,id,v",
    ),
    (
        "SELECT a.id, b.id FROM a FULL JOIN b ON a.id = b.aid",
        "accepted id,id",
    ),
    (
        "SELECT a.id, b.id FROM a FULL OUTER JOIN b ON a.x = b.y",
        "accepted id,id",
    ),
    (
        "SELECT a.id, b.id FROM a FULL JOIN b ON a.id < b.id AND b.id < 3",
        "accepted id,id",
    ),
    (
        "SELECT a.id, b.id FROM a FULL JOIN b ON FALSE WHERE a.id IS NULL OR a.id > 2",
        "accepted id,id",
    ),
    (
        "SELECT a.id, b.id FROM a FULL JOIN b ON TRUE WHERE a.x = 20",
        "accepted id,id",
    ),
    (
        "SELECT COALESCE(a.id, b.aid) AS k, b.y FROM a FULL JOIN b ON a.id = b.aid ORDER BY k, y NULLS FIRST",
        "accepted k,y",
    ),
    (
        "SELECT a.id, b.id, c.id FROM a FULL JOIN b ON a.id = b.aid FULL JOIN c ON c.bid = b.id",
        "accepted id,id,id",
    ),
    (
        "SELECT a.id, b.id FROM a FULL JOIN b ON EXISTS (SELECT 1 FROM c WHERE c.bid = b.id AND c.id = a.id)",
        "accepted id,id",
    ),
    (
        "SELECT a.id, b.id, c.z FROM a LEFT JOIN (b LEFT JOIN c ON b.id = c.bid) ON a.id = b.aid",
        "accepted id,id,z",
    ),
    (
        "SELECT a.id, b.id, c.z FROM a LEFT JOIN (b JOIN c ON b.id = c.bid) ON a.id = b.aid",
        "accepted id,id,z",
    ),
    (
        "SELECT a.id, b.id, c.z FROM a LEFT JOIN (b LEFT JOIN c ON b.id = c.bid) ON a.id = b.aid AND c.z IS NULL",
        "accepted id,id,z",
    ),
    (
        "SELECT a.id, b.id, c.z FROM (a LEFT JOIN b ON a.id = b.aid) LEFT JOIN c ON b.id = c.bid",
        "accepted id,id,z",
    ),
    (
        "SELECT a.id, b.id, c.z FROM c RIGHT JOIN (a LEFT JOIN b ON a.id = b.aid) ON b.id = c.bid",
        "accepted id,id,z",
    ),
    ("SELECT id FROM (((a)))", "accepted id"),
    (
        "SELECT a.id, b.id FROM ((a CROSS JOIN (b))) WHERE a.id = b.id",
        "accepted id,id",
    ),
    (
        "SELECT a.id, b.id, c.id, d.v FROM (a JOIN b ON a.id = b.aid) FULL JOIN (c JOIN d ON c.id = d.v) ON b.id = c.id",
        "accepted id,id,id,v",
    ),
    ("SELECT * FROM a", "accepted id,x"),
    ("SELECT * FROM a, d WHERE a.id = d.v", "accepted id,x,v"),
    (
        "SELECT a.*, b.y FROM a JOIN b ON a.id = b.aid",
        "accepted id,x,y",
    ),
    (
        "SELECT b.*, a.* FROM a LEFT JOIN b ON a.id = b.aid",
        "accepted id,aid,y,id,x",
    ),
    ("SELECT *, * FROM d WHERE v = 2", "accepted v,v"),
    (
        "SELECT s.* FROM (SELECT id AS k, x FROM a) s",
        "accepted k,x",
    ),
    (
        "SELECT *, id + 1 FROM a WHERE id = 1",
        "accepted id,x,?column?",
    ),
    ("SELECT DISTINCT * FROM d ORDER BY v", "accepted v"),
    (
        "SELECT id FROM a WHERE EXISTS (SELECT a.* FROM b WHERE b.aid = a.id)",
        "accepted id",
    ),
    (
        "SELECT id FROM a WHERE EXISTS (SELECT * FROM b WHERE b.aid = a.id)",
        "accepted id",
    ),
    (
        "SELECT id FROM a WHERE id IN (SELECT d.* FROM d)",
        "accepted id",
    ),
    (
        "SELECT id, id AS k, id k2, a.id, -id, id + 0, (id), (a.x) FROM a WHERE id = 1",
        "accepted id,k,k2,id,?column?,?column?,id,x",
    ),
    (
        "SELECT 1, 'x', NULL, TRUE, COALESCE(x, 1), CASE WHEN TRUE THEN x END FROM a WHERE id = 1",
        "accepted ?column?,?column?,?column?,?column?,?column?,?column?",
    ),
    (
        "SELECT s.\"?column?\" + 1 AS n FROM (SELECT id + 1 FROM a) s",
        "accepted n",
    ),
    ("SELECT s.id FROM (SELECT a.id FROM a) s", "accepted id"),
    (
        "SELECT \"Q\" FROM (SELECT id AS \"Q\" FROM a) s",
        "accepted Q",
    ),
    (
        "SELECT EXISTS (SELECT 1 FROM b), id IN (1, 2) FROM a WHERE id = 1",
        "accepted ?column?,?column?",
    ),
    (
        "SELECT s.k FROM (SELECT x AS k FROM a WHERE id > 1) s WHERE s.k = 10",
        "accepted k",
    ),
    (
        "SELECT k FROM (SELECT x + 1 AS k FROM a) AS s ORDER BY k DESC",
        "accepted k",
    ),
    ("SELECT id FROM (SELECT id FROM a)", "accepted id"),
    (
        "SELECT p.id, q.id FROM (SELECT id FROM a) p, (SELECT id FROM b) q WHERE p.id = q.id",
        "accepted id,id",
    ),
    (
        "SELECT a.id, s.n FROM a LEFT JOIN (SELECT aid, 1 AS n FROM b) s ON a.id = s.aid",
        "accepted id,n",
    ),
    (
        "SELECT a.id, s.n FROM a LEFT JOIN (SELECT aid, COALESCE(y, 0) AS n FROM b) s ON a.id = s.aid WHERE COALESCE(s.n, 0) = 0",
        "accepted id,n",
    ),
];

pub const LAST_NUMBERS: &[(&str, &str)] = &[
    (
        "SELECT s.v FROM (SELECT DISTINCT v FROM d) s JOIN (SELECT DISTINCT v FROM d) t ON s.v = t.v",
        "accepted v",
    ),
    (
        "SELECT z.k FROM (SELECT y.k FROM (SELECT id AS k FROM a WHERE x = 10) y WHERE y.k > 1) z",
        "accepted k",
    ),
    (
        "SELECT s.id, s.x FROM (SELECT a.id, b.id AS x FROM a LEFT JOIN b ON a.id = b.aid) s WHERE s.x IS NULL",
        "accepted id,x",
    ),
    (
        "SELECT (s.k) FROM (SELECT 1 AS k FROM a WHERE FALSE) s",
        "accepted k",
    ),
    (
        "SELECT s.k, s.k FROM ((SELECT id AS k FROM a) s)",
        "accepted k,k",
    ),
    (
        "SELECT id FROM a WHERE EXISTS (SELECT 1 FROM b WHERE b.aid = a.id)",
        "accepted id",
    ),
    (
        "SELECT id FROM a WHERE NOT EXISTS (SELECT 1 FROM b WHERE b.aid = a.id AND b.y > 5)",
        "accepted id",
    ),
    (
        "SELECT id FROM a WHERE EXISTS (SELECT 1 FROM d WHERE v > 5)",
        "accepted id",
    ),
    (
        "SELECT id FROM a WHERE EXISTS (SELECT 1 FROM b WHERE b.aid = a.id) OR x IS NULL",
        "accepted id",
    ),
    (
        "SELECT id, EXISTS (SELECT 1 FROM b WHERE b.aid = a.id) AS e FROM a",
        "accepted id,e",
    ),
    (
        "SELECT id FROM a WHERE EXISTS (SELECT 1 FROM b WHERE b.aid = a.id AND EXISTS (SELECT 1 FROM c WHERE c.bid = b.id))",
        "accepted id",
    ),
    (
        "SELECT id FROM a WHERE EXISTS (SELECT 1 FROM b WHERE EXISTS (SELECT 1 FROM c WHERE c.bid = b.id AND c.id = a.id))",
        "accepted id",
    ),
    (
        "SELECT id FROM a WHERE NOT (NOT EXISTS (SELECT 1 FROM b LEFT JOIN c ON c.bid = b.id AND c.z = a.x WHERE b.aid = a.id))",
        "accepted id",
    ),
    (
        "SELECT id FROM a WHERE EXISTS (SELECT 1 FROM (SELECT aid FROM b WHERE b.aid = a.id) s)",
        "accepted id",
    ),
    (
        "SELECT id FROM a ORDER BY EXISTS (SELECT 1 FROM b WHERE b.aid = a.id), id DESC",
        "accepted id",
    ),
    (
        "SELECT id FROM a WHERE EXISTS (SELECT b.id, b.aid FROM b, c WHERE b.id = c.bid AND b.aid = a.id) IS FALSE",
        "accepted id",
    ),
    (
        "SELECT a.id, b.id FROM a LEFT JOIN b ON a.id = b.aid AND EXISTS (SELECT 1 FROM c WHERE c.bid = b.id)",
        "accepted id,id",
    ),
    (
        "SELECT id FROM a WHERE id IN (SELECT aid FROM b)",
        "accepted id",
    ),
    (
        "SELECT id FROM a WHERE id NOT IN (SELECT aid FROM b)",
        "accepted id",
    ),
    (
        "SELECT id FROM a WHERE id NOT IN (SELECT y FROM b)",
        "accepted id",
    ),
    (
        "SELECT id FROM a WHERE x NOT IN (SELECT v FROM d WHERE v > 100)",
        "accepted id",
    ),
    (
        "SELECT id, x IN (SELECT v FROM d) AS i, id IN (SELECT v FROM d) AS j FROM a",
        "accepted id,i,j",
    ),
    (
        "SELECT id FROM a WHERE x IN (SELECT z FROM c WHERE FALSE) IS FALSE",
        "accepted id",
    ),
    (
        "SELECT id FROM a WHERE id IN (SELECT b.aid FROM b WHERE b.y > a.id)",
        "accepted id",
    ),
    (
        "SELECT id FROM a WHERE x * 10 IN (SELECT z FROM c)",
        "accepted id",
    ),
    (
        "SELECT id FROM a WHERE NULL IN (SELECT v FROM d) IS UNKNOWN",
        "accepted id",
    ),
    (
        "SELECT id FROM a WHERE 3 IN (SELECT v FROM d WHERE v IS NOT NULL) IS FALSE",
        "accepted id",
    ),
    (
        "SELECT id FROM a WHERE id IN (SELECT DISTINCT aid FROM b) AND id NOT IN (SELECT bid FROM c WHERE bid IS NOT NULL)",
        "accepted id",
    ),
    (
        "SELECT id FROM a WHERE (x = 10) IN (SELECT y > 5 FROM b)",
        "accepted id",
    ),
    (
        "SELECT id FROM a WHERE EXISTS (SELECT 1 FROM b) IN (SELECT TRUE FROM c)",
        "accepted id",
    ),
    ("SELECT id -- x\rFROM nowhere\nFROM a", "accepted id"),
    (
        "--\r\nSELECT id, x --, y\r, z\nFROM a WHERE id = 1 --\r",
        "accepted id,x",
    ),
    (
        "SELECT /* -- */ id /* ' */ , /* \" */ x FROM a WHERE /*/ */ id = 1",
        "accepted id,x",
    ),
    (
        "SELECT 1 FROM a t0, a t1, a t2, a t3, a t4, a t5, a t6, a t7, a t8, a t9, a t10, a t11, a t12",
        "13 entries",
    ),
    (
        "SELECT q FROM a, a, a, a, a, a, a, a, a, a, a, a, a, a",
        "14 entries",
    ),
    (
        "SELECT 1 FROM nowhere CROSS JOIN nowhere CROSS JOIN nowhere CROSS JOIN nowhere CROSS JOIN nowhere CROSS JOIN nowhere CROSS JOIN nowhere CROSS JOIN nowhere CROSS JOIN nowhere CROSS JOIN nowhere CROSS JOIN nowhere CROSS JOIN nowhere CROSS JOIN nowhere",
        "13 entries",
    ),
    (
        "SELECT 1 FROM a t0, a t1, a t2, a t3, a t4, a t5, a t6, a t7, a t8, a t9, a t10, a t11 WHERE EXISTS (SELECT 1 FROM b)",
        "13 entries",
    ),
    (
        "SELECT 1 FROM (SELECT 1 FROM a) s0, (SELECT 1 FROM a) s1, (SELECT 1 FROM a) s2, (SELECT 1 FROM a) s3, (SELECT 1 FROM a) s4, (SELECT 1 FROM a) s5, (SELECT 1 FROM a) s6",
        "14 entries",
    ),
    (
        "SELECT 1 FROM a WHERE x IN (SELECT v FROM d) AND x IN (SELECT v FROM d) AND x IN (SELECT v FROM d) AND x IN (SELECT v FROM d) AND x IN (SELECT v FROM d) AND x IN (SELECT v FROM d) AND x IN (SELECT v FROM d) AND x IN (SELECT v FROM d) AND x IN (SELECT v FROM d) AND x IN (SELECT v FROM d) AND x IN (SELECT v FROM d) AND x IN (SELECT v FROM d)",
        "13 entries",
    ),
    (
        "SELECT 1 FROM a ORDER BY EXISTS (SELECT 1 FROM b), EXISTS (SELECT 1 FROM b), EXISTS (SELECT 1 FROM b), EXISTS (SELECT 1 FROM b), EXISTS (SELECT 1 FROM b), EXISTS (SELECT 1 FROM b), EXISTS (SELECT 1 FROM b), EXISTS (SELECT 1 FROM b), EXISTS (SELECT 1 FROM b), EXISTS (SELECT 1 FROM b), EXISTS (SELECT 1 FROM b), EXISTS (SELECT 1 FROM b)",
        "13 entries",
    ),
    (
        "SELECT EXISTS (SELECT 1 FROM a, b, c), 1 + TRUE FROM a, b, c, d, (SELECT EXISTS (SELECT 1 FROM a, b, c) FROM d, q) s",
        "13 entries",
    ),
    (
        "SELECT 1 FROM a t0, a t1, a t2, a t3, a t4, a t5, a t6, a t7, a t8, a t9, a t10, a t11, a t12, a t13, a t14, a t15, a t16, a t17, a t18, a t19, a t20, a t21, a t22, a t23, a t24, a t25, a t26, a t27, a t28, a t29, a t30, a t31, a t32, a t33, a t34, a t35, a t36, a t37, a t38, a t39 ORDER BY 9",
        "40 entries",
    ),
    (
        "SELECT 1 FROM a LEFT JOIN b t0 ON TRUE LEFT JOIN b t1 ON TRUE LEFT JOIN b t2 ON TRUE LEFT JOIN b t3 ON TRUE LEFT JOIN b t4 ON TRUE LEFT JOIN b t5 ON TRUE LEFT JOIN b t6 ON TRUE LEFT JOIN b t7 ON TRUE LEFT JOIN b t8 ON TRUE LEFT JOIN b t9 ON TRUE LEFT JOIN b t10 ON TRUE LEFT JOIN b t11 ON TRUE",
        "13 entries",
    ),
    ("SELECT q FROM a", "unknown column 7"),
    ("SELECT v FROM d", "accepted v"),
];

pub const ONE_CATALOGUE: &str =
    "version = 1\n[tables.one]\nfile = \"one.csv\"\nrows = 1\ncolumns = [{name = \"v\", type = \"number\"}]\n";

pub const ONE: &[(&str, &str)] = &[
    (
        "SELECT 0 AS a, 007 AS b, 170141183460469231731687303715884105727 AS c FROM one",
        "accepted a,b,c",
    ),
    (
        "SELECT 0000000000000000000000000000000000000000000000000000000000001 AS z FROM one",
        "accepted z",
    ),
    (
        "SELECT -170141183460469231731687303715884105727 AS z FROM one",
        "accepted z",
    ),
    ("SELECT 1 AS a,2 FROM one", "accepted a,?column?"),
    (
        "SELECT 'it''s' AS a, '' AS b, '''' AS c, '-- no comment /*' AS d, 'say \"x\"' AS e FROM one",
        "accepted a,b,c,d,e",
    ),
    ("SELECT 'a'b FROM one", "accepted b"),
    (
        "SELECT 'two\nlines' AS a, 'a,b' AS b, 'cr\r' AS c FROM one",
        "accepted a,b,c",
    ),
    ("SELECT 'é€😀' AS a FROM one", "accepted a"),
    ("SELECT '' AS a FROM one", "accepted a"),
    ("SELECT '' FROM one WHERE v = 0", "accepted ?column?"),
    ("SELECT '\\N' AS a, NULL AS b FROM one", "accepted a,b"),
    (
        "SELECT NULL || 'a' AS t, NULL + 1 AS n, NOT (NULL) AS b, NULL = 1 AS c, NULL IN (NULL, 'a') AS d FROM one",
        "accepted t,n,b,c,d",
    ),
    ("SELECT v FROM one WHERE NULL", "accepted v"),
    ("SELECT v FROM one WHERE NULL IS NOT TRUE", "accepted v"),
    ("SELECT one.v FROM one JOIN one o ON NULL", "accepted v"),
    (
        "SELECT CASE WHEN NULL THEN NULL WHEN TRUE THEN 3 END AS k FROM one",
        "accepted k",
    ),
    (
        "SELECT NULL BETWEEN NULL AND 3 AS k, NULL = NULL AS m FROM one",
        "accepted k,m",
    ),
    (
        "SELECT s.k FROM (SELECT NULL AS k FROM one) s WHERE s.k IS NULL",
        "accepted k",
    ),
    (
        "SELECT t1.v FROM one t1, one t2, one t3, one t4, one t5, one t6, one t7, one t8, one t9, one t10, one t11 WHERE EXISTS (SELECT 1 FROM one WHERE v = t11.v)",
        "accepted v",
    ),
    (
        "SELECT s.v FROM (SELECT x1.v FROM one d, one x1, one x2 LEFT JOIN one x3 ON FALSE WHERE x3.v IS NULL) s WHERE s.v IN (SELECT y1.v FROM one y1, one y2 WHERE y1.v = y2.v AND EXISTS (SELECT 1 FROM one, one z WHERE one.v = z.v)) AND EXISTS (SELECT 1 FROM one p, one q JOIN one r ON q.v = r.v WHERE p.v = 7)",
        "accepted v",
    ),
    (
        "SELECT v * 00000000000000000000000000000000000000000000000000000000000000000000000000000000000000000000000000000000000000000000000000000000000000000000000000000000000000000000000000000000000000000000000000000000 AS z FROM one WHERE v = 0000000000000000000000000000000000000000000007",
        "accepted z",
    ),
];

pub const NAMES_CATALOGUE: &str =
    "version = 1\n[tables.Order]\nfile = \"Order.csv\"\nrows = 10\ncolumns = [{name = \"Id\", type = \"number\"}, {name = \"FROM\", type = \"number\"}, {name = \"a b\", type = \"text\"}]\nprimary_key = [\"Id\"]\n[tables.select]\nfile = \"select.csv\"\nrows = 10\ncolumns = [{name = \"by\", type = \"number\"}, {name = \"nulls\", type = \"number\"}, {name = \"first\", type = \"number\"}, {name = \"last\", type = \"number\"}, {name = \"unknown\", type = \"boolean\"}]\n[tables.\"x.y\"]\nfile = \"x_y.csv\"\nrows = 3\ncolumns = [{name = \"é\", type = \"number\"}, {name = \"say \\\"hi\\\"\", type = \"text\"}, {name = \"nnnnnnnnnnnnnnnnnnnnnnnnnnnnnnnnnnnnnnnnnnnnnnnnnnnnnnnnnnnnnnn\", type = \"number\"}]\n[tables.nnnnnnnnnnnnnnnnnnnnnnnnnnnnnnnnnnnnnnnnnnnnnnnnnnnnnnnnnnnnnnn]\nfile = \"nnnnnnnnnnnnnnnnnnnnnnnnnnnnnnnnnnnnnnnnnnnnnnnnnnnnnnnnnnnnnnn.csv\"\nrows = 3\ncolumns = [{name = \"t$1\", type = \"number\"}, {name = \"_u\", type = \"number\"}]\n";

pub const NAMES: &[(&str, &str)] = &[
    (
        "SELECT \"Id\", \"FROM\", \"a b\" FROM \"Order\"",
        "accepted Id,FROM,a b",
    ),
    (
        "SELECT \"Order\".\"FROM\" AS \"where\" FROM \"Order\" ORDER BY \"where\" DESC",
        "accepted where",
    ),
    (
        "SELECT o.\"Id\" FROM \"Order\" AS o WHERE o.\"a b\" = 'v'",
        "accepted Id",
    ),
    (
        "SELECT * FROM \"select\"",
        "accepted by,nulls,first,last,unknown",
    ),
    (
        "SELECT by, nulls, first, last, unknown FROM \"select\" ORDER BY nulls NULLS FIRST",
        "accepted by,nulls,first,last,unknown",
    ),
    (
        "SELECT nulls nulls, by by FROM \"select\" AS first ORDER BY nulls DESC NULLS LAST",
        "accepted nulls,by",
    ),
    (
        "SELECT FIRST.LAST FROM \"select\" first WHERE unknown IS NOT UNKNOWN",
        "accepted last",
    ),
    (
        "SELECT last FROM \"select\" last ORDER BY last.first, last.BY",
        "accepted last",
    ),
    (
        "SELECT nnnnnnnnnnnnnnnnnnnnnnnnnnnnnnnnnnnnnnnnnnnnnnnnnnnnnnnnnnnnnnn, t$1, _U FROM \"x.y\", nnnnnnnnnnnnnnnnnnnnnnnnnnnnnnnnnnnnnnnnnnnnnnnnnnnnnnnnnnnnnnn",
        "accepted nnnnnnnnnnnnnnnnnnnnnnnnnnnnnnnnnnnnnnnnnnnnnnnnnnnnnnnnnnnnnnn,t$1,_u",
    ),
    (
        "SELECT \"t$1\" AS T$1 FROM NNNNNNNNNNNNNNNNNNNNNNNNNNNNNNNNNNNNNNNNNNNNNNNNNNNNNNNNNNNNNNN AS \"nnnnnnnnnnnnnnnnnnnnnnnnnnnnnnnnnnnnnnnnnnnnnnnnnnnnnnnnnnnnnnn\"",
        "accepted t$1",
    ),
    (
        "SELECT \"Id\" AS \"Id\", \"Id\" AS \"id\" FROM \"Order\" ORDER BY \"id\", \"Id\"",
        "accepted Id,id",
    ),
    (
        "SELECT \"nnnnnnnnnnnnnnnnnnnnnnnnnnnnnnnnnnnnnnnnnnnnnnnnnnnnnnnnnnnnnnn\".\"t$1\" + \"nnnnnnnnnnnnnnnnnnnnnnnnnnnnnnnnnnnnnnnnnnnnnnnnnnnnnnnnnnnnnnn\"._U AS \"€€€€€€€€€€€€€€€€€€€€€\" FROM nnnnnnnnnnnnnnnnnnnnnnnnnnnnnnnnnnnnnnnnnnnnnnnnnnnnnnnnnnnnnnn",
        "accepted €€€€€€€€€€€€€€€€€€€€€",
    ),
];

pub const TRUTH_CATALOGUE: &str =
    "version = 1\n[tables.l]\nfile = \"l.csv\"\nrows = 9\ncolumns = [{name = \"p\", type = \"boolean\"}, {name = \"q\", type = \"boolean\"}]\n[tables.f]\nfile = \"f.csv\"\nrows = 300\ncolumns = [{name = \"id\", type = \"number\"}, {name = \"ok\", type = \"boolean\"}]\nprimary_key = [\"id\"]\n";

pub const TRUTH: &[(&str, &str)] = &[
    (
        "SELECT p, q, p AND q, p OR q, NOT p FROM l",
        "accepted p,q,?column?,?column?,?column?",
    ),
    ("SELECT p, q FROM l WHERE p OR q", "accepted p,q"),
    ("SELECT p, q FROM l WHERE NOT (p AND q)", "accepted p,q"),
    ("SELECT p, q FROM l WHERE NOT p AND NOT q", "accepted p,q"),
    (
        "SELECT p, q FROM l WHERE p AND q OR NOT p AND q",
        "accepted p,q",
    ),
    ("SELECT p, q FROM l WHERE NOT p = q", "accepted p,q"),
    (
        "SELECT p, q, p AND NULL, q OR NULL, NOT (NULL) FROM l",
        "accepted p,q,?column?,?column?,?column?",
    ),
    (
        "SELECT p, p IS NULL, p IS NOT NULL, p IS TRUE, p IS NOT TRUE, p IS FALSE, p IS NOT FALSE, p IS UNKNOWN, p IS NOT UNKNOWN FROM l WHERE q",
        "accepted p,?column?,?column?,?column?,?column?,?column?,?column?,?column?,?column?",
    ),
    (
        "SELECT p, q FROM l WHERE (p AND q) IS UNKNOWN",
        "accepted p,q",
    ),
    ("SELECT p, q FROM l WHERE NOT p IS NULL", "accepted p,q"),
    ("SELECT p, q FROM l WHERE (p IS TRUE) = q", "accepted p,q"),
    ("SELECT p, q FROM l WHERE p = q IS NOT TRUE", "accepted p,q"),
    (
        "SELECT (1 = 1) IS TRUE, (1 = NULL) IS UNKNOWN, NULL IS NULL, NULL IS UNKNOWN, NULL IS NOT FALSE FROM f WHERE id = 1",
        "accepted ?column?,?column?,?column?,?column?,?column?",
    ),
    (
        "SELECT p, q, p < q, p <= q, p = q, p <> q FROM l",
        "accepted p,q,?column?,?column?,?column?,?column?",
    ),
    ("SELECT id FROM f WHERE ok", "accepted id"),
    ("SELECT id FROM f WHERE NOT ok", "accepted id"),
    ("SELECT id FROM f WHERE ok > FALSE", "accepted id"),
    (
        "SELECT id, ok FROM f ORDER BY ok, id DESC",
        "accepted id,ok",
    ),
    ("SELECT DISTINCT p FROM l ORDER BY p DESC", "accepted p"),
    ("SELECT id FROM f WHERE ok IN (TRUE, NULL)", "accepted id"),
    (
        "SELECT id FROM f WHERE ok BETWEEN FALSE AND TRUE",
        "accepted id",
    ),
    (
        "SELECT id FROM f WHERE ok BETWEEN TRUE AND NULL IS UNKNOWN",
        "accepted id",
    ),
];

pub const TEXTS_CATALOGUE: &str =
    "version = 1\n[tables.p]\nfile = \"p.csv\"\nrows = 40\ncolumns = [{name = \"id\", type = \"number\"}, {name = \"name\", type = \"text\"}, {name = \"note\", type = \"text\"}]\nprimary_key = [\"id\"]\n[tables.q]\nfile = \"q.csv\"\nrows = 8\ncolumns = [{name = \"code\", type = \"text\"}, {name = \"n\", type = \"number\"}]\nunique = [[\"code\"]]\n";

pub const TEXTS: &[(&str, &str)] = &[
    ("SELECT id, name FROM p ORDER BY name", "accepted id,name"),
    (
        "SELECT id, name FROM p ORDER BY name DESC, id",
        "accepted id,name",
    ),
    ("SELECT id FROM p WHERE name < 'a'", "accepted id"),
    (
        "SELECT id FROM p WHERE name >= 'ada' ORDER BY id",
        "accepted id",
    ),
    ("SELECT id FROM p WHERE name = ''", "accepted id"),
    (
        "SELECT p.id, q.n FROM p, q WHERE p.note = q.code",
        "accepted id,n",
    ),
    (
        "SELECT p.id, q.n FROM p JOIN q ON p.note > q.code",
        "accepted id,n",
    ),
    (
        "SELECT id FROM p WHERE name BETWEEN 'A' AND 'Z'",
        "accepted id",
    ),
    (
        "SELECT id FROM p WHERE note IN ('x', '', NULL)",
        "accepted id",
    ),
    (
        "SELECT id FROM p WHERE note NOT IN ('x', '')",
        "accepted id",
    ),
    (
        "SELECT id, name || '/' || note AS t FROM p",
        "accepted id,t",
    ),
    (
        "SELECT id FROM p WHERE name || name = 'adaada'",
        "accepted id",
    ),
    (
        "SELECT id, COALESCE(name, '?') || COALESCE(note, '!') AS t FROM p WHERE id > 4",
        "accepted id,t",
    ),
    (
        "SELECT 'a' || '' || 'b' AS t, '' || '' AS u, 'a' || NULL AS v FROM q WHERE n = 1",
        "accepted t,u,v",
    ),
    ("SELECT '\\' || 'N' AS t FROM q WHERE n = 1", "accepted t"),
    (
        "SELECT id FROM p WHERE note || 'x' > 'x' ORDER BY 1 DESC",
        "accepted id",
    ),
    (
        "SELECT name, note FROM p WHERE id = 3",
        "accepted name,note",
    ),
    ("SELECT note FROM p WHERE id IN (4, 2)", "accepted note"),
    ("SELECT code FROM q", "accepted code"),
];

pub const NULLS_CATALOGUE: &str =
    "version = 1\n[tables.n]\nfile = \"n.csv\"\nrows = 4\ncolumns = [{name = \"a\", type = \"number\"}, {name = \"b\", type = \"text\"}, {name = \"c\", type = \"boolean\"}]\n[tables.o]\nfile = \"o.csv\"\nrows = 4\ncolumns = [{name = \"a\", type = \"number\"}]\n";

pub const NULLS: &[(&str, &str)] = &[
    ("SELECT * FROM n", "accepted a,b,c"),
    (
        "SELECT a = a, b = b, c = c, a IS NULL, b IS NULL, c IS UNKNOWN FROM n",
        "accepted ?column?,?column?,?column?,?column?,?column?,?column?",
    ),
    ("SELECT DISTINCT a, b FROM n", "accepted a,b"),
    (
        "SELECT o.a FROM o WHERE a NOT IN (SELECT a FROM n)",
        "accepted a",
    ),
    (
        "SELECT o.a FROM o WHERE a IN (SELECT a FROM n) IS UNKNOWN",
        "accepted a",
    ),
    (
        "SELECT o.a FROM o, n WHERE o.a IS NOT NULL AND n.c IS NOT FALSE",
        "accepted a",
    ),
    ("SELECT a FROM n ORDER BY b DESC, c", "accepted a"),
];

pub const WIDE_CATALOGUE: &str =
    "version = 1\n[tables.w]\nfile = \"w.csv\"\nrows = 5\ncolumns = [{name = \"id\", type = \"number\"}, {name = \"n\", type = \"number\"}]\nprimary_key = [\"id\"]\n[tables.m]\nfile = \"m.csv\"\nrows = 5\ncolumns = [{name = \"n\", type = \"number\"}]\n";

pub const WIDE: &[(&str, &str)] = &[
    (
        "SELECT id, n + n AS s, n - n AS d, n * n AS p, -n AS m FROM w",
        "accepted id,s,d,p,m",
    ),
    ("SELECT id, n * n + n AS v FROM w", "accepted id,v"),
    ("SELECT n * 18446744073709551615 AS v FROM m", "accepted v"),
    (
        "SELECT n * 18446744073709551615 + 9223372036854775807 AS v FROM m",
        "accepted v",
    ),
    ("SELECT n * n AS v FROM m", "accepted v"),
    (
        "SELECT 170141183460469231731687303715884105726 + 1 AS v FROM m",
        "accepted v",
    ),
    (
        "SELECT 170141183460469231731687303715884105727 + 0 AS v, 0 * 170141183460469231731687303715884105727 AS z FROM m",
        "accepted v,z",
    ),
    (
        "SELECT -170141183460469231731687303715884105726 - 1 AS v FROM m",
        "accepted v",
    ),
    (
        "SELECT n * 0 * 170141183460469231731687303715884105727 * 0 AS v FROM m",
        "accepted v",
    ),
    ("SELECT 0 * n * n * n AS v FROM m", "accepted v"),
    (
        "SELECT COALESCE(n, 85070591730234615865843651857942052864) + 85070591730234615865843651857942052863 AS v FROM m",
        "accepted v",
    ),
    (
        "SELECT CASE WHEN n > 0 THEN 85070591730234615865843651857942052864 ELSE n END + 85070591730234615865843651857942052863 AS v FROM m",
        "accepted v",
    ),
    (
        "SELECT s.v * s.v AS w FROM (SELECT 13043817825332782212 AS v FROM m) s WHERE s.v = 13043817825332782212",
        "accepted w",
    ),
    (
        "SELECT NULL * 170141183460469231731687303715884105727 AS v FROM m",
        "accepted v",
    ),
    (
        "SELECT NULL + 170141183460469231731687303715884105727 AS v, NULL * 170141183460469231731687303715884105727 * 7 AS u FROM m",
        "accepted v,u",
    ),
    (
        "SELECT n FROM m WHERE n * n = 85070591730234615847396907784232501249",
        "accepted n",
    ),
    ("SELECT n FROM w ORDER BY n * n, n", "accepted n"),
    (
        "SELECT id FROM w WHERE n IN (-9223372036854775808, 12)",
        "accepted id",
    ),
    (
        "SELECT id FROM w WHERE n BETWEEN -9223372036854775808 AND 12",
        "accepted id",
    ),
    (
        "SELECT 170141183460469231731687303715884105727 + 1 FROM m",
        "number too wide 7",
    ),
    (
        "SELECT -170141183460469231731687303715884105727 - 1 FROM m",
        "number too wide 7",
    ),
    ("SELECT n * n + n * n AS v FROM m", "number too wide 7"),
    ("SELECT n * n * 2 FROM m", "number too wide 7"),
    (
        "SELECT n * 18446744073709551616 FROM m",
        "number too wide 7",
    ),
    (
        "SELECT n * 18446744073709551615 + 9223372036854775808 AS v FROM m",
        "number too wide 7",
    ),
    ("SELECT n * n * n FROM m", "number too wide 7"),
    ("SELECT (n * n * n) * 0 AS v FROM m", "number too wide 8"),
    (
        "SELECT COALESCE(n, 85070591730234615865843651857942052864) + 85070591730234615865843651857942052864 AS v FROM m",
        "number too wide 7",
    ),
    (
        "SELECT CASE WHEN n > 0 THEN 85070591730234615865843651857942052864 ELSE n END + 85070591730234615865843651857942052864 AS v FROM m",
        "number too wide 7",
    ),
    (
        "SELECT CASE WHEN FALSE THEN 170141183460469231731687303715884105727 END + 1 FROM m",
        "number too wide 7",
    ),
    (
        "SELECT s.v * s.v AS w FROM (SELECT 13043817825332782213 AS v FROM m) s",
        "number too wide 7",
    ),
    (
        "SELECT v + v FROM (SELECT n * n AS v FROM m) s",
        "number too wide 7",
    ),
    (
        "SELECT n FROM m WHERE n - 170141183460469231731687303715884105727 = q",
        "number too wide 22",
    ),
    ("SELECT n FROM m ORDER BY n * n * n", "number too wide 25"),
    (
        "SELECT n FROM m JOIN w ON m.n * w.n * w.n = 0",
        "number too wide 26",
    ),
    (
        "SELECT n FROM m WHERE n IN (1, n * n * n)",
        "number too wide 31",
    ),
    (
        "SELECT n FROM m WHERE NOT (n BETWEEN 0 AND n * n * n)",
        "number too wide 43",
    ),
    (
        "SELECT n + 170141183460469231722463931679029329920 - 0 FROM m",
        "number too wide 7",
    ),
    (
        "SELECT n FROM m WHERE EXISTS (SELECT 1 FROM w WHERE w.n * m.n * m.n = 1)",
        "number too wide 52",
    ),
    (
        "SELECT 1 FROM m WHERE 0 = (n + 170141183460469231731687303715884105727) * 1",
        "number too wide 27",
    ),
    ("SELECT n * n * n + TRUE FROM m", "number too wide 7"),
];

pub const SHOP_CATALOGUE: &str =
    "version = 1\n[tables.customer]\nfile = \"customer.csv\"\nrows = 1000\ncolumns = [{name = \"id\", type = \"number\"}, {name = \"region\", type = \"number\"}, {name = \"name\", type = \"text\"}, {name = \"vip\", type = \"boolean\"}]\nprimary_key = [\"id\"]\n[tables.region]\nfile = \"region.csv\"\nrows = 10\ncolumns = [{name = \"id\", type = \"number\"}, {name = \"name\", type = \"text\"}]\nprimary_key = [\"id\"]\nunique = [[\"name\"]]\n[tables.orders]\nfile = \"orders.csv\"\nrows = 5000\ncolumns = [{name = \"id\", type = \"number\"}, {name = \"customer\", type = \"number\"}, {name = \"total\", type = \"number\"}]\nprimary_key = [\"id\"]\n[tables.line]\nfile = \"line.csv\"\nrows = 20000\ncolumns = [{name = \"id\", type = \"number\"}, {name = \"order_id\", type = \"number\"}, {name = \"product\", type = \"number\"}, {name = \"qty\", type = \"number\"}]\nprimary_key = [\"id\"]\n[tables.product]\nfile = \"product.csv\"\nrows = 300\ncolumns = [{name = \"id\", type = \"number\"}, {name = \"name\", type = \"text\"}, {name = \"price\", type = \"number\"}]\nprimary_key = [\"id\"]\n";

pub const SHOP: &[(&str, &str)] = &[
    (
        "SELECT c.name, o.id, l.qty FROM customer c LEFT JOIN orders o ON o.customer = c.id LEFT JOIN line l ON l.order_id = o.id",
        "accepted name,id,qty",
    ),
    (
        "SELECT c.name, r.name, o.total FROM customer c LEFT JOIN region r ON r.id = c.region JOIN orders o ON o.customer = c.id",
        "accepted name,name,total",
    ),
    (
        "SELECT r.name, c.name FROM region r LEFT JOIN customer c ON c.region = r.id AND c.vip",
        "accepted name,name",
    ),
    (
        "SELECT p.name, l.qty, o.id FROM product p LEFT JOIN (line l JOIN orders o ON l.order_id = o.id) ON l.product = p.id",
        "accepted name,qty,id",
    ),
    (
        "SELECT c.name || ' in ' || COALESCE(r.name, 'none') AS t FROM customer c LEFT JOIN region r ON r.id = c.region ORDER BY t DESC",
        "accepted t",
    ),
    (
        "SELECT o.id, p.price * l.qty AS v FROM orders o JOIN line l ON l.order_id = o.id JOIN product p ON p.id = l.product WHERE o.total IS NULL OR p.price * l.qty < o.total",
        "accepted id,v",
    ),
    (
        "SELECT c.id, o.id FROM customer c FULL JOIN orders o ON o.customer = c.id ORDER BY c.id DESC, 2",
        "accepted id,id",
    ),
];

pub const STAFF_CATALOGUE: &str =
    "version = 1\n[tables.emp]\nfile = \"emp.csv\"\nrows = 200\ncolumns = [{name = \"id\", type = \"number\"}, {name = \"boss\", type = \"number\"}, {name = \"dept\", type = \"number\"}, {name = \"name\", type = \"text\"}]\nprimary_key = [\"id\"]\n[tables.dept]\nfile = \"dept.csv\"\nrows = 12\ncolumns = [{name = \"id\", type = \"number\"}, {name = \"name\", type = \"text\"}, {name = \"open\", type = \"boolean\"}]\nprimary_key = [\"id\"]\n";

pub const STAFF: &[(&str, &str)] = &[
    (
        "SELECT e.name, b.name FROM emp e LEFT JOIN emp b ON e.boss = b.id",
        "accepted name,name",
    ),
    (
        "SELECT e.name, b.name, t.name AS top FROM emp e JOIN emp b ON e.boss = b.id LEFT JOIN emp t ON b.boss = t.id",
        "accepted name,name,top",
    ),
    (
        "SELECT e.name FROM emp e WHERE NOT EXISTS (SELECT 1 FROM emp s WHERE s.boss = e.id)",
        "accepted name",
    ),
    (
        "SELECT d.name, e.name FROM dept d FULL JOIN emp e ON e.dept = d.id",
        "accepted name,name",
    ),
    (
        "SELECT DISTINCT b.name FROM emp e, emp b WHERE e.boss = b.id",
        "accepted name",
    ),
    (
        "SELECT emp.name, e2.name FROM emp, emp e2 WHERE emp.id < e2.id AND emp.dept = e2.dept",
        "accepted name,name",
    ),
];

pub const EMPTY_CATALOGUE: &str =
    "version = 1\n[tables.e]\nfile = \"e.csv\"\nrows = 1\ncolumns = [{name = \"id\", type = \"number\"}, {name = \"v\", type = \"number\"}]\nprimary_key = [\"id\"]\n[tables.g]\nfile = \"g.csv\"\nrows = 7\ncolumns = [{name = \"id\", type = \"number\"}, {name = \"t\", type = \"text\"}, {name = \"b\", type = \"boolean\"}]\n[tables.h]\nfile = \"h.csv\"\nrows = 1\ncolumns = [{name = \"id\", type = \"number\"}]\nprimary_key = [\"id\"]\n";

pub const EMPTY: &[(&str, &str)] = &[
    ("SELECT * FROM e", "accepted id,v"),
    (
        "SELECT h.id, e.v FROM h LEFT JOIN e ON h.id = e.id",
        "accepted id,v",
    ),
    ("SELECT h.id, e.v FROM h, e", "accepted id,v"),
    (
        "SELECT id FROM h WHERE id IN (SELECT id FROM e)",
        "accepted id",
    ),
    (
        "SELECT id FROM h WHERE id NOT IN (SELECT id FROM e)",
        "accepted id",
    ),
    (
        "SELECT id FROM h WHERE NULL NOT IN (SELECT id FROM e)",
        "accepted id",
    ),
    (
        "SELECT id, EXISTS (SELECT 1 FROM g) AS x FROM h WHERE NOT EXISTS (SELECT 1 FROM e WHERE e.id = h.id)",
        "accepted id,x",
    ),
    ("SELECT DISTINCT t, b FROM g ORDER BY b", "accepted t,b"),
    (
        "SELECT g.t, e.v, h.id FROM g FULL JOIN e ON g.id = e.id FULL JOIN h ON h.id = e.id",
        "accepted t,v,id",
    ),
];

pub const REPEATS_CATALOGUE: &str =
    "version = 1\n[tables.z]\nfile = \"z.csv\"\nrows = 12\ncolumns = [{name = \"a\", type = \"number\"}, {name = \"b\", type = \"number\"}, {name = \"c\", type = \"text\"}]\n";

pub const REPEATS: &[(&str, &str)] = &[
    ("SELECT DISTINCT a FROM z", "accepted a"),
    ("SELECT DISTINCT a, b FROM z", "accepted a,b"),
    ("SELECT DISTINCT c FROM z ORDER BY c", "accepted c"),
    (
        "SELECT DISTINCT a + b AS s FROM z ORDER BY s DESC",
        "accepted s",
    ),
    (
        "SELECT DISTINCT a, c FROM z WHERE b = 1 ORDER BY c DESC, a",
        "accepted a,c",
    ),
    ("SELECT DISTINCT a IS NULL FROM z", "accepted ?column?"),
    ("SELECT DISTINCT 1 FROM z", "accepted ?column?"),
    (
        "SELECT DISTINCT * FROM z ORDER BY 3, 1, 2",
        "accepted a,b,c",
    ),
    (
        "SELECT DISTINCT a AS k, a FROM z ORDER BY z.a, k",
        "accepted k,a",
    ),
    (
        "SELECT DISTINCT x.a FROM z x, z y ORDER BY x.a DESC",
        "accepted a",
    ),
    ("SELECT a, b, c FROM z ORDER BY 1", "accepted a,b,c"),
    (
        "SELECT a, b, c FROM z ORDER BY 3 DESC, 1 ASC",
        "accepted a,b,c",
    ),
    ("SELECT a AS k, b FROM z ORDER BY k DESC", "accepted k,b"),
    (
        "SELECT a AS b, b AS a FROM z ORDER BY a, b DESC",
        "accepted b,a",
    ),
    (
        "SELECT a AS b, b AS a FROM z ORDER BY a + 0, b + 0 DESC",
        "accepted b,a",
    ),
    ("SELECT a, c FROM z ORDER BY b, a", "accepted a,c"),
    ("SELECT a, c FROM z ORDER BY z.b DESC, c", "accepted a,c"),
    ("SELECT a FROM z ORDER BY a * -1, c", "accepted a"),
    ("SELECT a AS k, a AS k FROM z ORDER BY k", "accepted k,k"),
    (
        "SELECT a, b FROM z ORDER BY a = b, a IS NULL, b",
        "accepted a,b",
    ),
    ("SELECT a FROM z ORDER BY 1 + 1, a", "accepted a"),
    ("SELECT a FROM z ORDER BY \"a\", +b", "accepted a"),
    (
        "SELECT a, b FROM z ORDER BY CASE WHEN a > 1 THEN 0 ELSE b END, c",
        "accepted a,b",
    ),
    (
        "SELECT a, b FROM z ORDER BY a NULLS FIRST, b NULLS FIRST",
        "accepted a,b",
    ),
    (
        "SELECT a, b FROM z ORDER BY a NULLS LAST, b",
        "accepted a,b",
    ),
    (
        "SELECT a, b FROM z ORDER BY a DESC NULLS LAST, b DESC",
        "accepted a,b",
    ),
    (
        "SELECT a, b FROM z ORDER BY a DESC NULLS FIRST, b ASC NULLS FIRST",
        "accepted a,b",
    ),
    (
        "SELECT a, b FROM z ORDER BY a ASC NULLS LAST, c DESC NULLS LAST, b",
        "accepted a,b",
    ),
    (
        "SELECT DISTINCT a FROM z ORDER BY b",
        "order not selected 34",
    ),
    (
        "SELECT DISTINCT a FROM z ORDER BY a, b",
        "order not selected 37",
    ),
    (
        "SELECT DISTINCT a FROM z ORDER BY a + 1",
        "order not selected 34",
    ),
    (
        "SELECT DISTINCT a + b AS s FROM z ORDER BY b + a",
        "order not selected 43",
    ),
    (
        "SELECT DISTINCT a AS k FROM z ORDER BY a * 1",
        "order not selected 39",
    ),
    (
        "SELECT DISTINCT x.a FROM z x, z y ORDER BY y.a",
        "order not selected 43",
    ),
    (
        "SELECT DISTINCT a FROM z ORDER BY 1 + 0",
        "order not selected 34",
    ),
    (
        "SELECT DISTINCT -a AS k FROM z ORDER BY a",
        "order not selected 40",
    ),
    (
        "SELECT DISTINCT a, c FROM z ORDER BY c, b, q",
        "order not selected 40",
    ),
    (
        "SELECT DISTINCT EXISTS (SELECT 1 FROM z) AS e FROM z ORDER BY EXISTS (SELECT 1 FROM z)",
        "order not selected 62",
    ),
    (
        "SELECT DISTINCT a FROM z ORDER BY -a",
        "order not selected 34",
    ),
    (
        "SELECT DISTINCT c FROM z ORDER BY c || ''",
        "order not selected 34",
    ),
    (
        "SELECT DISTINCT a = b FROM z ORDER BY b = a",
        "order not selected 38",
    ),
    (
        "SELECT DISTINCT a AS b FROM z ORDER BY z.b",
        "order not selected 39",
    ),
    ("SELECT a FROM z ORDER BY 0", "bad position 25"),
    ("SELECT a FROM z ORDER BY 2", "bad position 25"),
    ("SELECT a, b FROM z ORDER BY 1, 3", "bad position 31"),
    ("SELECT a FROM z ORDER BY -1", "bad position 25"),
    ("SELECT a FROM z ORDER BY +1", "bad position 25"),
    ("SELECT a FROM z ORDER BY 'a'", "bad position 25"),
    ("SELECT a FROM z ORDER BY NULL", "bad position 25"),
    ("SELECT a FROM z ORDER BY TRUE", "bad position 25"),
    ("SELECT a FROM z ORDER BY -'x'", "bad position 25"),
    (
        "SELECT DISTINCT a FROM z ORDER BY 2 DESC",
        "bad position 34",
    ),
    ("SELECT * FROM z ORDER BY 4", "bad position 25"),
    ("SELECT a FROM z ORDER BY (2)", "bad position 26"),
    (
        "SELECT a FROM z ORDER BY 170141183460469231731687303715884105727",
        "bad position 25",
    ),
    (
        "SELECT a FROM z ORDER BY a, FALSE NULLS FIRST, q",
        "bad position 28",
    ),
    (
        "SELECT a FROM z ORDER BY 00000000000000000000009",
        "bad position 25",
    ),
];

pub const SAME_CATALOGUE: &str =
    "version = 1\n[tables.t1]\nfile = \"t1.csv\"\nrows = 10\ncolumns = [{name = \"id\", type = \"number\"}, {name = \"v\", type = \"number\"}]\n[tables.t2]\nfile = \"t2.csv\"\nrows = 10\ncolumns = [{name = \"id\", type = \"number\"}, {name = \"v\", type = \"number\"}]\n[tables.t3]\nfile = \"t3.csv\"\nrows = 10\ncolumns = [{name = \"id\", type = \"number\"}, {name = \"w\", type = \"number\"}]\n";

pub const SAME: &[(&str, &str)] = &[
    (
        "SELECT t1.id FROM t1 WHERE EXISTS (SELECT 1 FROM t2 WHERE id = t1.id)",
        "accepted id",
    ),
    (
        "SELECT t1.id FROM t1 WHERE EXISTS (SELECT 1 FROM t3 WHERE w = v - 4)",
        "accepted id",
    ),
    (
        "SELECT v FROM t1 WHERE v IN (SELECT v FROM t3)",
        "accepted v",
    ),
    (
        "SELECT id FROM t1 WHERE id IN (SELECT t1.id FROM t2 AS t1)",
        "accepted id",
    ),
    (
        "SELECT t1.id FROM t1 WHERE EXISTS (SELECT 1 FROM t2 t1 WHERE t1.id = 3)",
        "accepted id",
    ),
    (
        "SELECT s.id FROM t1 s WHERE EXISTS (SELECT 1 FROM (SELECT s.v AS k FROM t2) s WHERE s.k = 5)",
        "accepted id",
    ),
    (
        "SELECT w FROM t1, t3 WHERE t1.id = t3.id AND v = 6",
        "accepted w",
    ),
    (
        "SELECT t1.v, t2.v FROM t1 JOIN t2 ON t1.id = t2.id",
        "accepted v,v",
    ),
    (
        "SELECT t1.id FROM t1 WHERE t1.id IN (SELECT id FROM t2 WHERE id IN (SELECT id FROM t3 WHERE w = t1.id))",
        "accepted id",
    ),
    (
        "SELECT x.v FROM (SELECT v FROM t1) x JOIN (SELECT v FROM t2) y ON x.v + 3 = y.v",
        "accepted v",
    ),
    (
        "SELECT t1.id FROM t1 LEFT JOIN t2 ON EXISTS (SELECT 1 FROM t3 WHERE t3.id = t2.id AND w = t1.id)",
        "accepted id",
    ),
    ("SELECT id FROM nowhere", "unknown table 15"),
    ("SELECT id FROM T1, \"T1\"", "unknown table 19"),
    ("SELECT t9.id FROM t1", "unknown table 7"),
    ("SELECT t1.id FROM t1 x", "unknown table 7"),
    ("SELECT s.* FROM t1", "unknown table 7"),
    ("SELECT t1.* FROM t1 AS t2", "unknown table 7"),
    ("SELECT q FROM nowhere", "unknown table 14"),
    ("SELECT id FROM t1 JOIN nowhere ON q", "unknown table 23"),
    ("SELECT id FROM nowhere, nowhere", "unknown table 15"),
    ("SELECT 1 FROM t1, nowhere t1", "unknown table 18"),
    (
        "SELECT q FROM t1 WHERE EXISTS (SELECT q FROM nowhere)",
        "unknown table 45",
    ),
    (
        "SELECT t1.id FROM t1 JOIN t2 ON t3.id = t1.id, t3",
        "unknown table 32",
    ),
    (
        "SELECT t1.id FROM t1, t2 JOIN t3 ON t1.id = t3.id",
        "unknown table 36",
    ),
    (
        "SELECT t1.id FROM t1, (SELECT t1.id FROM t2) s",
        "unknown table 30",
    ),
    (
        "SELECT t1.id FROM t1 WHERE EXISTS (SELECT 1 FROM t2) AND t2.id = 1",
        "unknown table 57",
    ),
    (
        "SELECT x.id FROM t1 JOIN (t2 x JOIN t3 ON t1.id = x.id) ON TRUE",
        "unknown table 42",
    ),
    ("SELECT t1.id FROM t1 ORDER BY t2.id", "unknown table 30"),
    (
        "SELECT DISTINCT t1.id FROM t1 ORDER BY t2.id",
        "unknown table 39",
    ),
    (
        "SELECT s.id FROM (SELECT t1.id FROM t1) t1, t2 s WHERE sub.id = 1",
        "unknown table 55",
    ),
    ("SELECT sub0.id FROM (SELECT id FROM t1)", "unknown table 7"),
    ("SELECT t1.id FROM (SELECT id FROM t1)", "unknown table 7"),
    (
        "SELECT 1 FROM t1 WHERE t1.id = 1 AND T.v = 2",
        "unknown table 37",
    ),
    (
        "SELECT t1.id FROM t1 WHERE t1.id IN (SELECT t2.id, t4.id FROM t2)",
        "unknown table 51",
    ),
    ("SELECT (t9.id) FROM t1 WHERE TRUE", "unknown table 8"),
    ("SELECT q FROM t1", "unknown column 7"),
    ("SELECT t1.q FROM t1", "unknown column 7"),
    ("SELECT \"ID\" FROM t1", "unknown column 7"),
    ("SELECT t1.w FROM t1, t3", "unknown column 7"),
    ("SELECT id, q FROM t1 ORDER BY r", "unknown column 11"),
    ("SELECT id FROM t1 WHERE q = 1", "unknown column 24"),
    (
        "SELECT id FROM t1 WHERE id = 1 AND v = q",
        "unknown column 39",
    ),
    ("SELECT id FROM t1 ORDER BY q", "unknown column 27"),
    ("SELECT id AS k FROM t1 WHERE k = 1", "unknown column 29"),
    ("SELECT id AS k FROM t1 ORDER BY k + 0", "unknown column 32"),
    ("SELECT t1.id FROM t1 JOIN t2 ON q = 1", "unknown column 32"),
    (
        "SELECT s.id FROM (SELECT id AS k FROM t1) s",
        "unknown column 7",
    ),
    (
        "SELECT k FROM (SELECT q AS k FROM t1) s",
        "unknown column 22",
    ),
    ("SELECT x.w FROM t1 x, t3", "unknown column 7"),
    (
        "SELECT t1.v FROM t1 WHERE EXISTS (SELECT 1 FROM t3 WHERE t3.v = 1)",
        "unknown column 57",
    ),
    ("SELECT w FROM t1 JOIN t2 ON w = 1, t3", "unknown column 28"),
    (
        "SELECT t3.id FROM t3, (SELECT w FROM t1) s",
        "unknown column 30",
    ),
    ("SELECT \"?column?\" FROM t1", "unknown column 7"),
    (
        "SELECT t1.id FROM t1 WHERE EXISTS (SELECT 1 FROM (SELECT w FROM t2) s, t3)",
        "unknown column 57",
    ),
    (
        "SELECT COALESCE(t1.id, t1.q, t9.z) FROM t1",
        "unknown column 23",
    ),
    (
        "SELECT CASE WHEN v > q THEN 1 END FROM t1",
        "unknown column 21",
    ),
    ("SELECT t1 FROM t1", "unknown column 7"),
    (
        "SELECT id FROM t1 WHERE id IN (1, q, TRUE)",
        "unknown column 34",
    ),
    ("SELECT -q + TRUE FROM t1", "unknown column 8"),
    ("SELECT id FROM t1, t2", "ambiguous column 7"),
    (
        "SELECT id FROM t1 JOIN t2 ON t1.id = t2.id",
        "ambiguous column 7",
    ),
    (
        "SELECT t1.id FROM t1 JOIN t2 ON id = 1",
        "ambiguous column 32",
    ),
    (
        "SELECT t1.id FROM t1, t2 WHERE v = 1",
        "ambiguous column 31",
    ),
    ("SELECT t1.id FROM t1, t2 ORDER BY v", "ambiguous column 34"),
    (
        "SELECT s.id FROM (SELECT id, v AS id FROM t1) s",
        "ambiguous column 7",
    ),
    (
        "SELECT s.v FROM (SELECT * FROM t1, t2) s",
        "ambiguous column 7",
    ),
    (
        "SELECT id FROM (SELECT id FROM t1) p, (SELECT id FROM t2) q",
        "ambiguous column 7",
    ),
    (
        "SELECT id AS k, v AS k FROM t1 ORDER BY k",
        "ambiguous column 40",
    ),
    (
        "SELECT id, v AS id FROM t1 ORDER BY id",
        "ambiguous column 36",
    ),
    (
        "SELECT t3.w FROM t3 WHERE EXISTS (SELECT 1 FROM t1, t2 WHERE id = t3.w)",
        "ambiguous column 61",
    ),
    (
        "SELECT w FROM t3 WHERE EXISTS (SELECT 1 FROM t1, t2 WHERE v = w)",
        "ambiguous column 58",
    ),
    (
        "SELECT t1.id, t2.id FROM t1, t2 ORDER BY id",
        "ambiguous column 41",
    ),
    (
        "SELECT t1.id FROM t1, t2, t3 WHERE id + q = 1",
        "ambiguous column 35",
    ),
    (
        "SELECT t1.id FROM t1, t2 x WHERE t1.id IN (id, TRUE)",
        "ambiguous column 43",
    ),
    (
        "SELECT DISTINCT id + 1 AS k, v + 1 AS k FROM t1 ORDER BY k",
        "ambiguous column 57",
    ),
    (
        "SELECT id FROM t1 LEFT JOIN (t2 CROSS JOIN t3) ON v = 1",
        "ambiguous column 50",
    ),
    ("SELECT 1 FROM t1, t1", "alias repeated 18"),
    ("SELECT 1 FROM t1 x, t2 x", "alias repeated 20"),
    ("SELECT 1 FROM t1, t2 t1", "alias repeated 18"),
    ("SELECT 1 FROM t1 JOIN t1 ON TRUE", "alias repeated 22"),
    ("SELECT q FROM t1 JOIN t1 ON q = 1", "alias repeated 22"),
    (
        "SELECT 1 FROM (SELECT id FROM t1) s, t2 s",
        "alias repeated 37",
    ),
    (
        "SELECT 1 FROM t1 s, (SELECT id FROM t1) s",
        "alias repeated 20",
    ),
    ("SELECT 1 FROM t1 \"X\", t2 X, t3 x", "alias repeated 28"),
    (
        "SELECT 1 FROM t1 CROSS JOIN (t2 CROSS JOIN t1)",
        "alias repeated 43",
    ),
    (
        "SELECT id FROM t1 WHERE EXISTS (SELECT 1 FROM t2, t2)",
        "alias repeated 50",
    ),
    (
        "SELECT 1 FROM t1, t2, (SELECT 1 FROM t1, t1) t1",
        "alias repeated 41",
    ),
    ("SELECT 1 FROM t1, t1, nowhere", "alias repeated 18"),
    ("SELECT id + TRUE FROM t1 a, t2 a", "alias repeated 28"),
];

pub const KEYS_CATALOGUE: &str =
    "version = 1\n[tables.r]\nfile = \"r.csv\"\nrows = 100\ncolumns = [{name = \"p\", type = \"number\"}, {name = \"q\", type = \"number\"}, {name = \"v\", type = \"number\"}]\nprimary_key = [\"p\", \"q\"]\n[tables.s]\nfile = \"s.csv\"\nrows = 50\ncolumns = [{name = \"u\", type = \"number\"}, {name = \"w\", type = \"number\"}]\nunique = [[\"u\", \"w\"], [\"w\"]]\n";

pub const KEYS: &[(&str, &str)] = &[
    ("SELECT * FROM r ORDER BY q DESC, p", "accepted p,q,v"),
    (
        "SELECT r.v, s.w FROM r LEFT JOIN s ON r.p = s.u AND r.q = s.w",
        "accepted v,w",
    ),
    (
        "SELECT s.u, s.w FROM s ORDER BY u NULLS FIRST, w DESC",
        "accepted u,w",
    ),
    (
        "SELECT r.p, x.q FROM r JOIN r x ON r.p = x.q WHERE x.v IS NULL OR r.v > x.v",
        "accepted p,q",
    ),
];

pub const MIXED_CATALOGUE: &str =
    "version = 1\n[tables.t]\nfile = \"t.csv\"\nrows = 40\ncolumns = [{name = \"k\", type = \"number\"}, {name = \"x\", type = \"number\"}, {name = \"y\", type = \"number\"}, {name = \"s\", type = \"text\"}]\nprimary_key = [\"k\"]\n[tables.u]\nfile = \"u.csv\"\nrows = 100\ncolumns = [{name = \"k\", type = \"number\"}, {name = \"x\", type = \"number\"}, {name = \"s\", type = \"text\"}]\nunique = [[\"k\", \"x\"]]\n[tables.v]\nfile = \"v.csv\"\nrows = 3\ncolumns = [{name = \"k\", type = \"number\"}, {name = \"x\", type = \"number\"}, {name = \"p\", type = \"boolean\"}]\n[tables.w]\nfile = \"w.csv\"\nrows = 1000\ncolumns = [{name = \"k\", type = \"number\"}, {name = \"x\", type = \"number\"}, {name = \"y\", type = \"number\"}, {name = \"p\", type = \"boolean\"}]\nunique = [[\"k\"]]\n";

pub const MIXED: &[(&str, &str)] = &[
    (
        "SELECT DISTINCT r2.x AS c0, r1.p AS c1, r1.k AS c2 FROM v r1, u r2",
        "accepted c0,c1,c2",
    ),
    (
        "SELECT r1.s AS c0, r1.k AS c1, r1.s AS c2 FROM u r1 JOIN v r2 ON r1.k = (r1.k + r2.x)",
        "accepted c0,c1,c2",
    ),
    (
        "SELECT DISTINCT r1.x AS c0 FROM u r1 JOIN u r2 ON r1.x = r2.x",
        "accepted c0",
    ),
    (
        "SELECT r1.k AS c0, TRUE AS c1, r1.x AS c2 FROM t r1 LEFT JOIN u r2 ON r2.k = r1.x AND (r1.k IS NOT NULL AND r2.x = r1.k AND r2.k IS NULL) AND ((r1.k BETWEEN r2.x AND 0) AND r2.k = (r1.k - r1.y) AND r2.x IS NOT NULL)",
        "accepted c0,c1,c2",
    ),
    (
        "SELECT FALSE AS c0, NULL AS c1, r1.x AS c2 FROM v r1",
        "accepted c0,c1,c2",
    ),
    (
        "SELECT 3 AS c0, FALSE AS c1, NULL AS c2 FROM (SELECT -r2.c1 AS c0, 0 AS c1 FROM (SELECT r3.k AS c0, r3.k AS c1, FALSE AS c2 FROM t r3) r2 LEFT JOIN v r4 ON (COALESCE(r2.c0, r4.x) = (r2.c1 + r4.x) OR (EXISTS (SELECT 1 FROM u r5, v r6 WHERE r5.k = r4.x AND ((r2.c0 + r6.k) = r5.x) IS TRUE)) OR r2.c1 IS NOT NULL)) r1",
        "accepted c0,c1,c2",
    ),
    (
        "SELECT DISTINCT r2.k AS c0, -r1.y AS c1 FROM w r1 LEFT JOIN (t r2 FULL JOIN w r3 ON r3.x IN (3, r3.k)) ON r1.k = r2.y AND r1.k = r3.y AND (COALESCE(r2.k, r1.x) <> -r3.x AND r1.k <> r3.y) ORDER BY 2",
        "accepted c0,c1",
    ),
    (
        "SELECT r1.s AS c0, FALSE AS c1, (r1.k + r1.k) AS c2 FROM u r1 WHERE r1.x NOT IN (SELECT r3.x FROM v r2 LEFT JOIN v r3 ON COALESCE(r2.k, 2) = r3.k WHERE r3.x = r1.x)",
        "accepted c0,c1,c2",
    ),
    (
        "SELECT DISTINCT FALSE AS c0, COALESCE(r1.c0, r1.c1) AS c1 FROM (SELECT DISTINCT r2.x AS c0, r2.y AS c1 FROM t r2 WHERE TRUE) r1 WHERE r1.c0 IS NULL",
        "accepted c0,c1",
    ),
    (
        "SELECT CASE WHEN r1.x = -r1.k THEN -r1.k ELSE r1.k END AS c0, 1 AS c1, r1.k AS c2 FROM v r1 ORDER BY 1 NULLS FIRST, ('a' || 'b')",
        "accepted c0,c1,c2",
    ),
    (
        "SELECT r1.k AS c0, r1.x AS c1, r2.k AS c2 FROM u r1, v r2",
        "accepted c0,c1,c2",
    ),
    (
        "SELECT r1.c0 = CASE WHEN -r1.c0 <> COALESCE(r1.c0, r1.c0) THEN r1.c0 END AS c0, r1.c0 AS c1 FROM (SELECT r2.y AS c0 FROM t r2) r1 WHERE NOT EXISTS (SELECT 1 FROM u r3 WHERE r3.x = r1.c0)",
        "accepted c0,c1",
    ),
    (
        "SELECT 1 AS c0 FROM w r1 CROSS JOIN w r2 ORDER BY r2.x DESC NULLS LAST",
        "accepted c0",
    ),
    (
        "SELECT 1 AS c0, (3 BETWEEN 1 AND 3) AND 3 < 3 AND 1 IS NULL AS c1 FROM (SELECT r2.s AS c0 FROM u r2 WHERE r2.s IS NULL) r1 RIGHT JOIN (SELECT 'b' AS c0 FROM (SELECT r6.x AS c0, r5.x AS c1 FROM u r5 LEFT JOIN u r6 ON COALESCE(r5.x, 1) = r5.k AND (r6.k = r5.k AND r5.k <> r6.k) WHERE r5.k = r5.k) r4) r3 ON 2 = 2",
        "accepted c0,c1",
    ),
    (
        "SELECT r1.y AS c0, 'a' AS c1, r1.k AS c2 FROM w r1 LEFT JOIN u r2 ON r2.x = r1.y AND r1.k IN (1, r2.x), w r3 ORDER BY 3 DESC, 2",
        "accepted c0,c1,c2",
    ),
    (
        "SELECT r1.s AS c0, '' AS c1, r2.k AS c2 FROM t r1 LEFT JOIN t r2 ON (-r1.k < r1.y AND (r2.y BETWEEN r2.k AND 3)) AND r2.x = r1.x AND r1.x = r2.y, (SELECT r4.k AS c0, (r4.x - r4.k) AS c1, (r4.x + r4.k) AS c2 FROM v r4) r3",
        "accepted c0,c1,c2",
    ),
    (
        "SELECT DISTINCT r1.x AS c0, r1.p AS c1, r1.y AS c2 FROM w r1",
        "accepted c0,c1,c2",
    ),
    (
        "SELECT TRUE AS c0 FROM u r1 LEFT JOIN t r2 ON (r2.k IN (2, r2.y) AND r2.k IS NULL) AND r1.k = r2.y AND r2.x = r1.x",
        "accepted c0",
    ),
    (
        "SELECT NOT ((COALESCE(r2.k, r2.x) = CASE WHEN r2.x = CASE WHEN COALESCE(r2.s, r1.s) = r1.s THEN r1.k ELSE r1.x END OR (r2.k BETWEEN r1.k AND 1) OR TRUE THEN r2.x END) IS NOT FALSE) AS c0, (r1.k IS NULL) IS TRUE AS c1 FROM u r1 LEFT JOIN u r2 ON (r2.s >= r1.s) IS NOT FALSE WHERE COALESCE(r2.x, r1.k) = r1.k",
        "accepted c0,c1",
    ),
    (
        "SELECT r1.s AS c0, r1.k AS c1, r1.x AS c2 FROM t r1 LEFT JOIN u r2 ON r1.y = r2.k ORDER BY 2 DESC",
        "accepted c0,c1,c2",
    ),
    (
        "SELECT 'a' AS c0, 3 AS c1, -r1.k AS c2 FROM w r1 RIGHT JOIN ((SELECT r4.y AS c0, r3.x AS c1, r4.p AS c2 FROM v r3 LEFT JOIN w r4 ON COALESCE(r3.k, 1) = r3.x WHERE r4.p) r2 JOIN t r5 ON r2.c0 = r5.x) ON CASE WHEN -r2.c1 < COALESCE(r1.k, r5.x) THEN r5.s END = COALESCE(r5.s, r5.s)",
        "accepted c0,c1,c2",
    ),
    ("SELECT 1 AS c0, 0 AS c1 FROM w r1, t r2", "accepted c0,c1"),
    (
        "SELECT NULL AS c0, r1.s AS c1, (r1.s || r1.s) AS c2 FROM u r1 LEFT JOIN (SELECT r3.k AS c0 FROM v r3) r2 ON r1.x = r1.x AND r1.x = r2.c0",
        "accepted c0,c1,c2",
    ),
    (
        "SELECT 1 AS c0 FROM u r1 FULL JOIN t r2 ON r1.x = r2.k, v r3 LEFT JOIN t r4 ON r4.k = r3.x",
        "accepted c0",
    ),
    (
        "SELECT (r2.s || r2.s) AS c0, 'a' AS c1, r1.k AS c2 FROM t r1 LEFT JOIN u r2 ON r1.x = r2.k AND (r2.s IS NOT NULL) IS NOT FALSE AND COALESCE(r1.y, 2) = r1.x ORDER BY 1",
        "accepted c0,c1,c2",
    ),
    (
        "SELECT r1.c0 AS c0, r1.c0 AS c1, r1.c0 AS c2 FROM (SELECT r2.c1 AS c0, 'b' AS c1 FROM (SELECT -r3.y = r3.y AS c0, r3.k AS c1 FROM t r3) r2 WHERE r2.c0) r1",
        "accepted c0,c1,c2",
    ),
    (
        "SELECT TRUE AS c0 FROM t r1 LEFT JOIN (SELECT r3.c1 AS c0, r3.c1 AS c1, COALESCE('b', COALESCE('', 'a')) AS c2 FROM (SELECT r4.x AS c0, r5.k AS c1, (r4.k + r4.k) = r5.k AS c2 FROM u r4 LEFT JOIN u r5 ON r4.x = r5.k WHERE r5.s IS NULL) r3 WHERE COALESCE('', 'b') = '') r2 ON r1.y = r2.c1 ORDER BY 1 DESC NULLS LAST, r1.x",
        "accepted c0",
    ),
    (
        "SELECT r2.k AS c0 FROM u r1 LEFT JOIN v r2 ON r1.k = r2.x AND r1.x = r2.x ORDER BY 1 DESC NULLS LAST, (r1.s || r1.s) DESC NULLS LAST",
        "accepted c0",
    ),
    (
        "SELECT DISTINCT r2.p AS c0, r1.s AS c1, r1.k AS c2 FROM u r1, w r2 ORDER BY 1, 3",
        "accepted c0,c1,c2",
    ),
    (
        "SELECT DISTINCT r1.k AS c0 FROM w r1 FULL JOIN u r2 ON r2.x = r1.x WHERE r1.p ORDER BY 1",
        "accepted c0",
    ),
    (
        "SELECT r1.c0 AS c0, TRUE AS c1, r1.c1 AS c2 FROM (SELECT NULL AS c0, '' AS c1, r2.x AS c2 FROM v r2) r1 ORDER BY 3",
        "accepted c0,c1,c2",
    ),
    ("SELECT r1.k AS c0, '' AS c1 FROM t r1", "accepted c0,c1"),
    (
        "SELECT r1.c1 AS c0, r1.c0 AS c1 FROM (SELECT r2.p AS c0, 'b' AS c1, r2.k AS c2 FROM w r2) r1",
        "accepted c0,c1",
    ),
    (
        "SELECT TRUE AS c0, r1.p AS c1 FROM v r1 RIGHT JOIN w r2 ON r2.k = r1.x AND r1.k = r2.k AND (NOT EXISTS (SELECT 1 FROM u r3 WHERE r3.x = r2.k AND (r3.x = r3.k AND (r3.k IS NULL) IS NOT FALSE AND 1 = 1))), t r4 WHERE r2.x BETWEEN r2.y AND 3",
        "accepted c0,c1",
    ),
    (
        "SELECT 1 AS c0, r1.c0 AS c1, r5.x AS c2 FROM (SELECT DISTINCT r2.x AS c0 FROM w r2 JOIN (SELECT r4.p AS c0, r4.p AS c1 FROM v r4) r3 ON 'b' = 'b') r1 RIGHT JOIN v r5 ON r1.c0 = r5.k AND r1.c0 = r5.x AND r5.x = r1.c0 WHERE '' IS NOT NULL ORDER BY 1, r1.c0",
        "accepted c0,c1,c2",
    ),
    (
        "SELECT DISTINCT r1.k AS c0, r1.k AS c1 FROM u r1 LEFT JOIN v r2 ON r1.k = r2.x AND r1.k IS NULL AND r1.x = r2.k",
        "accepted c0,c1",
    ),
];

pub const MORE_MIXED: &[(&str, &str)] = &[
    (
        "SELECT -r2.k AS c0, CASE WHEN (CASE WHEN COALESCE(r2.x, r2.x) < r1.x THEN r1.k END = r1.x) IS UNKNOWN OR r2.x = r1.k THEN r2.p ELSE CASE WHEN r1.x IS NOT NULL THEN r2.p ELSE r2.p END END AS c1, r1.s AS c2 FROM u r1 LEFT JOIN w r2 ON ((r2.x NOT IN (SELECT r3.x FROM v r3 WHERE r3.k = r2.x AND COALESCE(r3.k, r2.x) >= COALESCE(r2.x, r1.k))) AND r1.k IS NULL) ORDER BY COALESCE(r1.s, r1.s)",
        "accepted c0,c1,c2",
    ),
    (
        "SELECT DISTINCT r1.p AS c0 FROM v r1 RIGHT JOIN w r2 ON r1.k = r2.y ORDER BY 1",
        "accepted c0",
    ),
    (
        "SELECT DISTINCT (r1.c0 + r1.c0) AS c0 FROM (SELECT r2.k AS c0 FROM u r2) r1",
        "accepted c0",
    ),
    ("SELECT NULL AS c0 FROM u r1", "accepted c0"),
    (
        "SELECT r1.k = r1.k AS c0, r1.s AS c1 FROM t r1 WHERE COALESCE(r1.k, r1.k) = r1.k ORDER BY r1.x, 2 NULLS FIRST",
        "accepted c0,c1",
    ),
    (
        "SELECT r2.p AS c0, r1.x AS c1 FROM v r1 LEFT JOIN w r2 ON r1.x = r2.y AND COALESCE(r2.y, 0) = r2.y AND r1.k = r2.y",
        "accepted c0,c1",
    ),
    (
        "SELECT DISTINCT r1.s AS c0, 'a' AS c1, r1.s AS c2 FROM t r1 ORDER BY 3, 1",
        "accepted c0,c1,c2",
    ),
    (
        "SELECT r4.x AS c0, r4.s AS c1 FROM (SELECT TRUE AS c0 FROM (SELECT CASE WHEN 'b' <> ('' || '') THEN (r3.x - r3.x) ELSE r3.x END AS c0 FROM w r3) r2) r1, u r4",
        "accepted c0,c1",
    ),
    (
        "SELECT r2.x AS c0, r2.k AS c1, r3.k AS c2 FROM (u r1 LEFT JOIN v r2 ON r1.k = r2.k) FULL JOIN w r3 ON r1.k = r1.x WHERE r1.k IN (SELECT r4.x FROM w r4 CROSS JOIN (SELECT '' AS c0, r6.y AS c1, 'b' AS c2 FROM w r6) r5) ORDER BY 1 DESC NULLS LAST",
        "accepted c0,c1,c2",
    ),
    (
        "SELECT r1.c1 AS c0 FROM (SELECT r3.k AS c0, (r3.y + r3.x) AS c1, COALESCE(r2.x, (r3.y + r3.y)) AS c2 FROM v r2, w r3) r1 WHERE r1.c1 >= COALESCE(r1.c1, r1.c0)",
        "accepted c0",
    ),
    (
        "SELECT r1.k AS c0, TRUE AS c1 FROM t r1 LEFT JOIN (SELECT COALESCE(COALESCE(r3.x, r3.x), r3.y) AS c0 FROM t r3 LEFT JOIN w r4 ON COALESCE(r4.k, 2) = r4.y WHERE r4.y IS NOT NULL AND (r4.k <> r3.x AND COALESCE(r3.s, r3.s) = (r3.s || r3.s) AND (r3.y + r3.k) >= r3.y)) r2 ON r1.k = r2.c0 ORDER BY COALESCE(r1.s, r1.s) NULLS FIRST",
        "accepted c0,c1",
    ),
    (
        "SELECT r3.k AS c0 FROM (SELECT 0 AS c0 FROM u r2) r1, t r3",
        "accepted c0",
    ),
    (
        "SELECT DISTINCT r1.k IS NULL AS c0, r1.x AS c1, 3 AS c2 FROM u r1 JOIN (SELECT r3.k AS c0 FROM t r3) r2 ON r1.s = CASE WHEN r1.k = (r2.c0 + r1.x) THEN r1.s ELSE r1.s END AND ((r1.k = CASE WHEN r1.x = r1.x AND (r1.x IS NULL) IS NOT FALSE AND r1.x = r2.c0 THEN r2.c0 ELSE r1.x END) OR COALESCE(r1.k, r2.c0) = (r2.c0 + r1.k) OR r1.s IS NULL)",
        "accepted c0,c1,c2",
    ),
    (
        "SELECT 1 AS c0, TRUE AS c1 FROM (SELECT 'a' AS c0, COALESCE(COALESCE('a', 'a'), ('a' || 'a')) AS c1 FROM w r2) r1 ORDER BY 2, 1",
        "accepted c0,c1",
    ),
    (
        "SELECT r3.p AS c0, r2.x AS c1 FROM u r1 LEFT JOIN t r2 ON r2.y = r1.x AND r1.k = r2.x, w r3 RIGHT JOIN u r4 ON r3.k = r4.k AND r3.x = r4.k AND COALESCE(r3.k, 0) = r4.x",
        "accepted c0,c1",
    ),
    (
        "SELECT COALESCE((r1.k + r2.k), r1.x) AS c0, r1.p AS c1 FROM v r1 LEFT JOIN u r2 ON r2.x = r1.x AND r2.s IN ('b', r2.s) WHERE ((r1.x BETWEEN r1.x AND 3) AND r2.x >= COALESCE(r1.k, r2.x)) OR ((r1.x + r1.x) < r2.k OR COALESCE(r2.x, r2.x) >= COALESCE(r2.k, r1.x) OR (r2.s IS NULL) IS TRUE) OR r2.x IS NOT NULL",
        "accepted c0,c1",
    ),
    ("SELECT r1.k AS c0 FROM u r1 ORDER BY 1", "accepted c0"),
    ("SELECT k FROM t WHERE k = 'a'", "type mismatch 22"),
    ("SELECT k FROM t WHERE s = 1", "type mismatch 22"),
    ("SELECT k + s AS v FROM t", "type mismatch 7"),
    ("SELECT k FROM t WHERE k", "type mismatch 22"),
    ("SELECT k FROM t WHERE s", "type mismatch 22"),
    ("SELECT k || s AS v FROM t", "type mismatch 7"),
    ("SELECT -s FROM t", "type mismatch 7"),
    ("SELECT +s FROM t", "type mismatch 7"),
    ("SELECT NOT k FROM t", "type mismatch 7"),
    ("SELECT k AND TRUE FROM t", "type mismatch 7"),
    ("SELECT p OR k FROM v", "type mismatch 7"),
    ("SELECT k IS TRUE FROM t", "type mismatch 7"),
    ("SELECT s IS UNKNOWN FROM t", "type mismatch 7"),
    ("SELECT p < k FROM v", "type mismatch 7"),
    ("SELECT k * TRUE FROM t", "type mismatch 7"),
    ("SELECT k BETWEEN 1 AND 'a' FROM t", "type mismatch 7"),
    ("SELECT k IN (1, 'a') FROM t", "type mismatch 7"),
    ("SELECT k IN (NULL, NULL, 'a') FROM t", "type mismatch 7"),
    ("SELECT COALESCE(k, s) FROM t", "type mismatch 7"),
    ("SELECT COALESCE(NULL, k, TRUE) FROM t", "type mismatch 7"),
    ("SELECT CASE WHEN k THEN 1 END FROM t", "type mismatch 7"),
    (
        "SELECT CASE WHEN TRUE THEN k ELSE s END FROM t",
        "type mismatch 7",
    ),
    (
        "SELECT CASE k WHEN 'a' THEN 1 END FROM t",
        "type mismatch 7",
    ),
    (
        "SELECT CASE WHEN TRUE THEN NULL WHEN FALSE THEN 1 ELSE s END FROM t",
        "type mismatch 7",
    ),
    ("SELECT k FROM t WHERE (k)", "type mismatch 23"),
    ("SELECT k FROM t WHERE ((k) + (1))", "type mismatch 23"),
    ("SELECT t.k FROM t JOIN u ON t.k", "type mismatch 28"),
    ("SELECT t.k FROM t JOIN u ON (t.s)", "type mismatch 29"),
    (
        "SELECT k FROM t WHERE k IN (SELECT s FROM u)",
        "type mismatch 22",
    ),
    (
        "SELECT k FROM t WHERE NULL IN (SELECT NULL FROM u) AND k = s",
        "type mismatch 55",
    ),
    (
        "SELECT k FROM t WHERE COALESCE(NULL, NULL)",
        "type mismatch 22",
    ),
    ("SELECT COALESCE(NULL, NULL) + 1 FROM t", "type mismatch 7"),
    (
        "SELECT CASE WHEN TRUE THEN NULL END + 1 FROM t",
        "type mismatch 7",
    ),
    ("SELECT v.k FROM v, t WHERE p AND t.s", "type mismatch 27"),
    ("SELECT k FROM t ORDER BY k + s", "type mismatch 25"),
    (
        "SELECT DISTINCT k FROM t ORDER BY k || s",
        "type mismatch 34",
    ),
    (
        "SELECT z.n + 1 FROM (SELECT NULL AS n FROM t) z",
        "type mismatch 7",
    ),
    (
        "SELECT k FROM t WHERE k IN (SELECT NULL FROM u)",
        "type mismatch 22",
    ),
    (
        "SELECT NULL = 'a' AND NULL = 1 AND s > k FROM t",
        "type mismatch 35",
    ),
    (
        "SELECT EXISTS (SELECT k + s FROM t) FROM u",
        "type mismatch 22",
    ),
    (
        "SELECT k FROM t WHERE k IN (SELECT k, x FROM u)",
        "not one column 22",
    ),
    (
        "SELECT k FROM t WHERE k IN (SELECT * FROM u)",
        "not one column 22",
    ),
    (
        "SELECT k FROM t WHERE k NOT IN (SELECT u.*, 1 FROM u)",
        "not one column 22",
    ),
    (
        "SELECT k FROM t WHERE s IN (SELECT k, s FROM u)",
        "not one column 22",
    ),
    (
        "SELECT k FROM t WHERE k IN (SELECT v.*  FROM v) AND q = 1",
        "not one column 22",
    ),
    (
        "SELECT k FROM t WHERE k IN (SELECT s, s FROM u)",
        "not one column 22",
    ),
    ("SELECT k IN (SELECT t.* FROM u) FROM t", "not one column 7"),
    (
        "SELECT k FROM t ORDER BY k IN (SELECT k, k FROM u)",
        "not one column 25",
    ),
    (
        "SELECT t.k FROM t JOIN u ON u.k IN (SELECT DISTINCT x, y FROM w)",
        "not one column 28",
    ),
];

pub const LAST_MIXED: &[(&str, &str)] = &[
    (
        "SELECT k FROM t WHERE NOT (k + 1) IN (SELECT 1, 2 FROM u)",
        "not one column 26",
    ),
    (
        "SELECT DISTINCT r2 . x AS c0 , r1 . p AS c1 , r1 . k AS c2 FROM v k , u r2",
        "unknown table 31",
    ),
    (
        "SELECT r1 . k AS c0 , TRUE AS c1 , r1 . x AS c2 FROM t r1 LEFT JOIN u r2 ON r2 . k = r1 . x AND ( r1 . k IS NOT NULL AND r2 . x = r1 . k AND r2 . k IS NULL ) AND ( ( r1 . k BETWEEN r2 . r2 AND 0 ) AND r2 . k = ( r1 . k - r1 . y ) AND r2 . x IS NOT NULL )",
        "unknown column 181",
    ),
    (
        "SELECT FALSE AS c0 , NULL AS c1 , r1 . x AS c2 FROM q r1",
        "unknown table 52",
    ),
    (
        "SELECT NULL AS c0 FROM ( SELECT r2 . c0 AS c0 , NULL AS c1 FROM ( SELECT r3 . x AS c0 , r3 . x AS c1 FROM v r3 , v r4 ) r2 WHERE ( COALESCE ( r2 . c0 , r2 . c1 ) >= CASE WHEN x = 1 THEN r2 . c0 ELSE r2 . c1 END ) IS TRUE ) r1 , w r5 WHERE '' >= 'b'",
        "unknown column 175",
    ),
    (
        "SELECT 1 AS c0 FROM w r1 CROSS JOIN w ORDER BY r2 . x DESC NULLS LAST",
        "unknown table 47",
    ),
    (
        "SELECT r1 . y AS c0 , 'a' AS c1 , r1 . k AS c2 FROM w r1 LEFT JOIN u r1 ON r2 . x = r1 . y AND r1 . k IN ( 1 , r2 . x ) , w r3 ORDER BY 3 DESC , 2",
        "alias repeated 67",
    ),
    (
        "SELECT 1 AS c0 , 3 AS c1 FROM ( SELECT r2 . x AS c0 FROM t r2 ) r1 LEFT JOIN u r3 ON k . k = r1 . c0 , ( SELECT r5 . k AS c0 FROM u r5 JOIN w r6 ON r5 . x = r6 . y WHERE r5 . k < r6 . k ) r4 WHERE r3 . x < COALESCE ( r3 . k , r1 . c0 )",
        "unknown table 85",
    ),
    (
        "SELECT 0 AS c0 , r1 . c0 AS c1 , NULL AS c2 FROM ( SELECT r3 . k AS c0 , r2 . p AS c1 FROM w r2 LEFT JOIN w r3 ON ( COALESCE ( 'b' , c0 ) = COALESCE ( 'a' , 'b' ) ) IS NOT FALSE AND r2 . y = r3 . y WHERE COALESCE ( r2 . x , r3 . k ) <> r3 . x ) r1",
        "unknown column 133",
    ),
    (
        "SELECT r5 . x AS c0 , 'b' AS c1 , r1 . c0 IS NULL AND r5 . x = r5 . x AS c2 FROM ( SELECT r2 . c0 AS c0 FROM ( SELECT r4 . y AS c0 , r4 . c0 AS c1 , r3 . p AS c2 FROM w r3 , t r4 WHERE r4 . s >= r4 . s ) r2 WHERE r2 . c0 IS NULL ) r1 , u r5 WHERE r5 . k IS NOT NULL ORDER BY 1",
        "unknown column 133",
    ),
    (
        "SELECT 1 AS c0 , r1 . c0 AS c1 , r5 . x AS c2 FROM ( SELECT DISTINCT r2 . x AS c0 FROM w r2 JOIN ( SELECT r4 . p AS c0 , r4 . p AS c1 FROM v r4 ) r3 ON 'b' = 'b' ) r1 RIGHT JOIN v r5 ON r1 . x = r5 . k AND r1 . c0 = r5 . x AND r5 . x = r1 . c0 WHERE '' IS NOT NULL ORDER BY 1 , r1 . c0",
        "unknown column 186",
    ),
    (
        "SELECT DISTINCT r1 . k AS c0 , r1 . k AS c1 FROM u r1 LEFT JOIN v r2 ON r1 . k = r2 . x AND x . k IS NULL AND r1 . x = r2 . k",
        "unknown table 92",
    ),
    (
        "SELECT r1 . c2 AS c0 , '' AS c1 FROM ( SELECT r2 . k AS c0 , COALESCE ( r2 . y , r2 . y ) < r2 . x AS c1 , FALSE AS x FROM t r2 WHERE NOT ( r2 . k IS NOT NULL ) AND ( ( EXISTS ( SELECT 1 FROM v r3 WHERE r3 . x = r2 . x AND r2 . s = r2 . s ) ) AND r2 . x IS NULL AND r2 . y IS NULL ) ) r1",
        "unknown column 7",
    ),
    (
        "SELECT 3 AS c0 FROM w r1 LEFT JOIN v r2 ON r1 . k = r2 . k AND r1 . k = r2 . x WHERE COALESCE ( 'b' , 'b' ) = k AND ( CASE WHEN r2 . p THEN r2 . x END >= r1 . x AND ( q . x - r2 . x ) = r2 . k AND r1 . y IS NULL ) ORDER BY COALESCE ( '' , 'a' )",
        "ambiguous column 110",
    ),
    (
        "SELECT DISTINCT r2 . c2 AS c0 , r1 . p AS c1 , 1 AS c2 FROM v r1 LEFT JOIN ( SELECT r3 . k AS c0 , r3 . s AS c1 , r3 . s AS c0 FROM u r3 , v r4 ) r2 ON r1 . k = r2 . c0 LEFT JOIN w r5 ON r1 . p WHERE ( r5 . y = COALESCE ( r5 . x , r5 . k ) ) IS TRUE ORDER BY 1",
        "ambiguous column 161",
    ),
    (
        "SELECT COALESCE ( r1 . k , r1 . x ) AS c0 , ( r2 . c0 || r1 . s ) AS c1 , r1 . x AS c2 FROM u r1 JOIN ( SELECT '' AS c0 , r3 . p AS c1 , ( r3 . y IS NULL ) AS c2 FROM w r3 ) r2 ON 2 = r1 . x WHERE r1 . k IS NULL ORDER BY TRUE NULLS FIRST , 3 DESC",
        "bad position 221",
    ),
    (
        "SELECT r3 . k AS c0 FROM ( SELECT 1 AS c0 FROM w r2 WHERE r2 . x AND r2 . y AND 0 ) r1 , v r3",
        "type mismatch 58",
    ),
    (
        "SELECT r3 . x AS c0 FROM ( SELECT ( r2 . k + r2 . y ) AS c0 , r2 . k AS c1 , r2 . x AS c1 FROM w r2 ) r1 LEFT JOIN u c0 ON ( r1 . c1 IN ( 1 , r1 . c2 ) ) IS NOT TRUE AND COALESCE ( r1 . c0 , 0 ) = r3 . x AND r1 . c0 = r3 . k ORDER BY r3 . x DESC NULLS LAST , 1",
        "ambiguous column 125",
    ),
    (
        "SELECT ( r1 . x + r2 . k ) AS c0 FROM v r1 LEFT JOIN ( w r1 RIGHT JOIN ( SELECT ( r4 . p ) AS c0 FROM v r4 WHERE r4 . p ) r3 ON r2 . k = 2 AND NULL = q . k AND r2 . x = 3 ) ON r2 . x = r1 . x WHERE r3 . c0 AND 'b' IS NULL AND ( r2 . k - r1 . x ) = r1 . k",
        "alias repeated 55",
    ),
    (
        "SELECT DISTINCT ( 'a' || 'a' ) AS c0 FROM ( SELECT r2 . x AS c0 , r2 . x AS c1 , r2 . x AS c2 FROM v r2 , v r3 ) r1 WHERE r1 . c1 IS NOT NULL ORDER BY TRUE NULLS FIRST",
        "bad position 151",
    ),
    (
        "SELECT DISTINCT r1 . p AS c0 , - r1 . k AS c1 , 1 AS c2 FROM v r1 , u r2 ORDER BY NULL DESC",
        "bad position 82",
    ),
    (
        "SELECT COALESCE ( ( r1 . s || r1 . s ) , r1 . s ) AS c0 , - r1 . k AS c1 , r1 . s AS c2 FROM u r1 WHERE r1 . s <> COALESCE ( r1 . x , r1 . k ) ORDER BY 2 , 2 DESC NULLS LAST",
        "type mismatch 104",
    ),
    (
        "SELECT DISTINCT r1 . y AS c0 FROM w r1 LEFT JOIN u r2 ON r1 . k = r2 . x FULL JOIN ( SELECT DISTINCT r4 . x AS c0 FROM t r4 ) r3 ON COALESCE ( r3 . c0 , 2 ) = r1 . k WHERE ( r2 . x - r2 . k ) = COALESCE ( r1 . y , r3 . c0 ) AND ( COALESCE ( r1 . k , r2 . x ) - r2 . k AND r1 . x IS NOT NULL )",
        "type mismatch 230",
    ),
    (
        "SELECT DISTINCT r2 . k AS c0 , r2 . x AS c1 , r2 . y AS c2 FROM u r1 , t r2 ORDER BY NULL DESC NULLS LAST",
        "bad position 85",
    ),
    (
        "SELECT r4 . k AS c0 , NULL AS c1 FROM ( SELECT r2 . k AS c0 FROM w r2 WHERE NOT ( r2 . p ) ) r1 LEFT JOIN ( v r3 JOIN u r1 ON EXISTS ( SELECT 1 FROM t r5 ) ) ON r4 . k = r1 . c0 WHERE r4 . x <> COALESCE ( r1 . c0 , r3 . x ) AND r3 . k IS NULL",
        "alias repeated 118",
    ),
    (
        "SELECT DISTINCT r1 . c1 AS c0 , r1 . c1 AS c1 FROM ( SELECT COALESCE ( r2 . y , r2 . k ) AS c0 , NOT r2 . k AS c1 FROM w r2 WHERE NOT ( CASE WHEN r2 . p THEN 'a' ELSE 'a' END = 'a' ) ) r1 ORDER BY 2 DESC NULLS LAST",
        "type mismatch 97",
    ),
    (
        "SELECT '' >= 'b' AND r1 . c0 >= - r1 . c0 AND 'b' IS NOT NULL AS c0 FROM ( SELECT r2 . s AS c0 , ( r2 . k BETWEEN r2 . y AND 2 ) AND r2 . x = CASE WHEN r2 . x < COALESCE ( r2 . x , r2 . x ) THEN r2 . k ELSE r2 . y END AS c1 FROM t r2 ) r1 ORDER BY q . c0 , r1 . c0 DESC",
        "type mismatch 32",
    ),
    (
        "SELECT 0 AS c0 , r2 . k AS c1 FROM t r1 CROSS JOIN v r1 WHERE ( COALESCE ( r2 . x , r1 . y ) = COALESCE ( r1 . y , r1 . y ) AND ( r1 . s || r1 . s ) = COALESCE ( r1 . s , r1 . s ) ) AND ( r2 . x + r1 . x ) = r1 . k",
        "alias repeated 51",
    ),
    (
        "SELECT r1 . x AS c0 , r1 . k AS c1 , 2 AS c2 FROM u r1 ORDER BY TRUE NULLS FIRST",
        "bad position 64",
    ),
    (
        "SELECT ( r1 . c0 || r1 . c0 ) AS c0 FROM ( SELECT '' AS c0 , r5 . x AS c1 , r5 . y AS c0 FROM ( SELECT r4 . x AS c0 , NULL AS c1 FROM v r3 , v r4 WHERE - r3 . x <> r3 . k ) r2 , w r5 WHERE ( NULL || 'b' ) = '' ) r1",
        "ambiguous column 9",
    ),
    (
        "SELECT - r1 . x AS c0 , r1 . p AS c1 FROM w r1 LEFT JOIN t r2 ON r1 . y = r2 . x LEFT JOIN ( v r3 FULL JOIN u r1 ON ( r4 . s IS NULL ) IS UNKNOWN ) ON r2 . x = r4 . x AND r2 . y = r1 . x WHERE r3 . k IS NULL",
        "alias repeated 108",
    ),
];

pub const TUVW_CATALOGUE: &str =
    "version = 1\n[tables.t]\nfile = \"t.csv\"\nrows = 5\ncolumns = [{name = \"k\", type = \"number\"}, {name = \"x\", type = \"number\"}]\n[tables.u]\nfile = \"u.csv\"\nrows = 30\ncolumns = [{name = \"k\", type = \"number\"}, {name = \"x\", type = \"number\"}]\nunique = [[\"k\"]]\n[tables.v]\nfile = \"v.csv\"\nrows = 200\ncolumns = [{name = \"k\", type = \"number\"}, {name = \"x\", type = \"number\"}]\n[tables.w]\nfile = \"w.csv\"\nrows = 1\ncolumns = [{name = \"k\", type = \"number\"}, {name = \"x\", type = \"number\"}]\nprimary_key = [\"k\"]\n";

pub const TUVW: &[(&str, &str)] = &[
    (
        "SELECT r1.k AS c0, r1.x AS c1, r2.k AS c2, r2.x AS c3, r1.x AS c4, r3.x AS c5, r4.x AS c7, r5.k AS c8, r5.x AS c9 FROM w r1 LEFT JOIN (w r2 LEFT JOIN v r3 ON r2.x = r2.k AND r2.k = r3.k AND r3.k IS NULL) ON (r1.k = r3.k OR r1.k IS NULL) JOIN t r4 ON (r3.x = r1.x) IS NOT TRUE LEFT JOIN t r5 ON r4.k = r5.k AND NOT EXISTS (SELECT 1 FROM u e6 WHERE e6.k = r5.x AND r5.x = 1)",
        "accepted c0,c1,c2,c3,c4,c5,c7,c8,c9",
    ),
    (
        "SELECT s5.x AS c1 FROM (SELECT r1.k AS k, 1 AS x FROM t r1 LEFT JOIN (t r2 LEFT JOIN v r3 ON r3.k = r3.x AND r2.x = r2.k AND r3.k IN (SELECT e4.k FROM v e4) AND COALESCE(r2.x, r3.x) = 0) ON r1.x = r3.x AND r1.k = r2.k) s5 ORDER BY 1",
        "accepted c1",
    ),
    (
        "SELECT r1.k AS c0, r1.x AS c1, r2.k AS c2, r2.x AS c3, r3.k AS c4, r3.x AS c5 FROM v r1 LEFT JOIN (u r2 LEFT JOIN v r3 ON TRUE AND r2.k IS NULL AND r2.k = r3.x) ON COALESCE(r1.x, 1) = r2.x ORDER BY 1",
        "accepted c0,c1,c2,c3,c4,c5",
    ),
    (
        "SELECT r3.x AS c0, r1.x AS c1, r2.k AS c2, r2.x AS c3, r3.k AS c4, r3.x AS c5, r4.k AS c6, r4.x AS c7, r1.k AS c8, r5.x AS c9 FROM u r1 LEFT JOIN (t r2 JOIN v r3 ON r3.x IS NULL AND r3.k = r3.x AND r2.k IS NULL) ON r3.x IS NULL LEFT JOIN (w r4 JOIN u r5 ON r4.x = r5.x AND (r5.k = r5.x OR r5.k IS NULL) AND r4.k = r5.k) ON r5.k = 0 AND (r2.x = r4.x) IS NOT TRUE",
        "accepted c0,c1,c2,c3,c4,c5,c6,c7,c8,c9",
    ),
    (
        "SELECT r1.k AS c0, r1.x AS c1, r2.k AS c2, r2.x AS c3, r3.k AS c4, r3.x AS c5, COALESCE(r2.x, r1.x) AS c6, r4.x AS c7 FROM t r1 LEFT JOIN u r2 ON r1.x IS NULL AND r1.x = r2.k LEFT JOIN t r3 ON r2.k <= r3.x AND r3.x = r3.k AND COALESCE(r1.k, r2.k) = 0 JOIN u r4 ON COALESCE(r2.x, r4.k) = 1",
        "accepted c0,c1,c2,c3,c4,c5,c6,c7",
    ),
    (
        "SELECT r1.k AS c0, r1.x AS c1, r2.k AS c2, r2.x AS c3, r3.k AS c4, r3.x AS c5 FROM v r1 LEFT JOIN (t r2 RIGHT JOIN t r3 ON r2.x = 1 AND COALESCE(r2.x, 1) = r3.k) ON r1.k IS NULL AND COALESCE(r1.x, 1) = r2.x",
        "accepted c0,c1,c2,c3,c4,c5",
    ),
    (
        "SELECT r1.k AS c0, r1.x AS c1, r2.k AS c2 FROM u r1 LEFT JOIN u r2 ON r2.x <= r2.x AND EXISTS (SELECT 1 FROM w e3 WHERE e3.k = r1.x) AND r1.k IS NULL",
        "accepted c0,c1,c2",
    ),
    (
        "SELECT r3.x AS c0, r1.x AS c1, r2.k AS c2, r4.x AS c3, r3.k AS c4, r3.x AS c5, COALESCE(r1.k, r4.x) AS c6, r4.x AS c7 FROM u r1 LEFT JOIN u r2 ON COALESCE(r1.x, r2.k) = 1 AND r2.k = 1 LEFT JOIN (u r3 LEFT JOIN u r4 ON r4.x = r4.k AND COALESCE(r3.k, 0) = r4.k) ON r4.k = r3.x AND r2.x <= r4.k AND r1.k IS NULL",
        "accepted c0,c1,c2,c3,c4,c5,c6,c7",
    ),
    (
        "SELECT r1.x AS c0, r3.x AS c1, 1 AS c4 FROM u r1 LEFT JOIN v r2 ON r1.x = r2.k RIGHT JOIN v r3 ON r2.x <= r3.k AND r1.k <= r3.x",
        "accepted c0,c1,c4",
    ),
    (
        "SELECT r1.k AS c0, 0 AS c1, r2.x AS c3 FROM t r1 LEFT JOIN w r2 ON r1.k <= r2.x AND (r1.x = r2.k OR r1.x IS NULL) AND r1.x = r2.k AND NOT EXISTS (SELECT 1 FROM w e3 LEFT JOIN w e4 ON (e3.k = e4.k) IS NOT TRUE WHERE (e3.k = r2.k OR e3.k IS NULL) AND e4.k = r2.x)",
        "accepted c0,c1,c3",
    ),
    (
        "SELECT r1.k AS c0, r1.x AS c1, r2.k AS c2, r2.x AS c3, r3.k AS c4, r3.x AS c5 FROM w r1 LEFT JOIN w r2 ON r1.k = r2.x AND r1.k = r1.k LEFT JOIN t r3 ON r2.k = r3.k AND COALESCE(r1.x, 0) = r2.x WHERE r1.x = 0 AND NOT EXISTS (SELECT 1 FROM t e4 WHERE e4.k = r3.k AND e4.k = 0)",
        "accepted c0,c1,c2,c3,c4,c5",
    ),
    (
        "SELECT r1.k AS c0, r1.x AS c1, r2.k AS c2, r2.x AS c3 FROM t r1 LEFT JOIN v r2 ON r1.k = r2.x AND r2.k = r2.k WHERE r2.x <= r1.x",
        "accepted c0,c1,c2,c3",
    ),
    (
        "SELECT r1.k AS c0, r1.x AS c1, r4.k AS c2, r2.x AS c3, r3.k AS c4, r4.k AS c6, r4.k AS c7 FROM w r1 LEFT JOIN t r2 ON r1.x = r2.x AND COALESCE(r1.x, r2.k) = 0 LEFT JOIN (u r3 JOIN t r4 ON r3.k = r4.k) ON r2.x = r3.k",
        "accepted c0,c1,c2,c3,c4,c6,c7",
    ),
    (
        "SELECT r1.k AS c0, r1.x AS c1, s4.k AS c2, s4.x AS c3 FROM w r1 LEFT JOIN (SELECT r2.k AS k, r2.k AS x FROM v r2 LEFT JOIN v r3 ON r3.x IS NULL) s4 ON TRUE AND r1.k <= s4.x AND r1.k IN (SELECT e5.k FROM v e5) ORDER BY 1",
        "accepted c0,c1,c2,c3",
    ),
    (
        "SELECT r1.k AS c0, r2.k AS c1, r1.k AS c2, r2.x AS c3 FROM t r1 LEFT JOIN v r2 ON r1.k = r2.x AND r2.x = r2.x",
        "accepted c0,c1,c2,c3",
    ),
    (
        "SELECT r1.k AS c0, r1.x AS c1, r2.k AS c2, r2.x AS c3 FROM v r1 LEFT JOIN t r2 ON r1.k = 1 AND r2.x IS NULL AND r1.x = r2.x WHERE (r2.x = r1.x) IS NOT TRUE",
        "accepted c0,c1,c2,c3",
    ),
    (
        "SELECT r1.k AS c0, r1.x AS c1, r2.k AS c2, r2.x AS c3, r4.x AS c4, r3.x AS c5, r4.k AS c6, r4.x AS c7 FROM w r1 RIGHT JOIN (t r2 LEFT JOIN (w r3 LEFT JOIN u r4 ON r3.k = r4.x AND r4.x <= r4.x) ON r2.k = r3.x AND (r4.x = r3.k OR r4.x IS NULL)) ON r1.k = r2.k AND r3.x = 1",
        "accepted c0,c1,c2,c3,c4,c5,c6,c7",
    ),
    (
        "SELECT r1 . x AS c1 , r2 . k AS c2 , r2 . x AS c3 FROM w r1 JOIN t t ON r2 . x IS NULL AND r1 . k IS NULL WHERE r2 . x = r2 . k",
        "unknown table 72",
    ),
    (
        "SELECT CASE WHEN r2 . k IS NULL THEN 0 ELSE r1 . k END AS c0 , r1 . x AS c1 , r2 . k AS c2 , r2 . x AS c3 FROM v r1 LEFT JOIN u r2 ON r1 . x = 0 AND COALESCE ( r1 . x , r2 . x ) = 'a'",
        "type mismatch 149",
    ),
    (
        "SELECT s3 . k AS c0 , s3 . x AS c1 FROM ( SELECT 1 AS k , x AS x , NOT EXISTS ( SELECT 1 FROM w e4 WHERE e4 . k = r2 . x ) AS p FROM t r1 LEFT JOIN u r2 ON r1 . k = r2 . k WHERE COALESCE ( r2 . k , r2 . x ) = 1 ) s3 ORDER BY 1",
        "ambiguous column 58",
    ),
    (
        "SELECT r1 . k AS c0 , 0 AS c1 , r2 . k AS c2 , r2 . x AS c3 , r3 . k AS c4 , r3 . x AS c5 FROM u r1 LEFT JOIN w r2 ON r1 . k = r2 . x AND COALESCE ( r1 . x , r2 . x ) = k JOIN t r3 ON r3 . k = 1 AND r2 . x = r2 . k",
        "ambiguous column 169",
    ),
    (
        "SELECT r1 . k AS c0 , r3 . x AS c1 , r2 . k AS c2 , r1 . x AS c3 , r3 . k AS c4 , r3 . x AS c5 FROM w r1 LEFT JOIN ( w r2 LEFT JOIN v r2 ON r2 . k IS NULL ) ON r1 . k = 1 WHERE r3 . k IN ( SELECT e4 . x FROM u e4 )",
        "alias repeated 132",
    ),
];
