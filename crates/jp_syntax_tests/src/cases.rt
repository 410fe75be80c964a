//! Statements, and what they are read as: the tree, or what is wrong and where.

/// Selects and ORDER BY: the sources, each with its tree as `shown` writes it, or `syntax` and the place.
pub const SELECTS: &[(&str, &str)] = &[
    ("", "syntax 0"),
    ("SELECT * FROM a", "select *@7 from a@14"),
    ("SELECT a.* FROM a", "select a.*@7 from a@16"),
    ("SELECT x FROM a", "select x@7 from a@14"),
    ("SELECT DISTINCT x FROM a", "select distinct x@16 from a@23"),
    ("SELECT x y FROM a", "select x@7 as y from a@16"),
    ("SELECT x AS y FROM a", "select x@7 as y from a@19"),
    (
        "SELECT x AS \"Y y\" FROM a b",
        "select x@7 as Y y from a as b@23",
    ),
    (
        "SELECT x, y.z, *, a.* FROM a AS b, c d",
        "select x@7 , y.z@10 , *@15 , a.*@18 from a as b@27 , c as d@35",
    ),
    ("SELECT x FROM a;", "select x@7 from a@14"),
    ("SELECT x FROM a;;", "syntax 16"),
    (
        "SELECT x FROM a ORDER BY x",
        "select x@7 from a@14 order x@25 asc last",
    ),
    (
        "SELECT x FROM a ORDER BY x ASC, y DESC",
        "select x@7 from a@14 order x@25 asc last , y@32 desc first",
    ),
    (
        "SELECT x FROM a ORDER BY x NULLS FIRST, y DESC NULLS LAST",
        "select x@7 from a@14 order x@25 asc first , y@40 desc last",
    ),
    (
        "SELECT x FROM a ORDER BY x + 1 DESC NULLS FIRST;",
        "select x@7 from a@14 order sum(+ x@25 , + 1@29)@25 desc first",
    ),
    ("SELECT x FROM a ORDER x", "syntax 22"),
    ("SELECT x FROM a ORDER BY", "syntax 24"),
    ("SELECT x FROM a ORDER BY x NULLS", "syntax 32"),
    ("SELECT x FROM a ORDER BY x NULLS UNKNOWN", "syntax 33"),
];

/// Conditions.
pub const CONDITIONS: &[(&str, &str)] = &[
    (
        "SELECT x FROM a WHERE x = 1",
        "select x@7 from a@14 where (x@22) = (1@26)@22",
    ),
    ("SELECT x FROM a WHERE", "syntax 21"),
    (
        "SELECT x FROM a WHERE x = 1 OR y = 2 AND NOT z = 3",
        "select x@7 from a@14 where or((x@22) = (1@26)@22 , and((y@31) = (2@35)@31 , not((z@45) = (3@49)@45)@41)@31)@22",
    ),
    (
        "SELECT x FROM a WHERE (x = 1 OR y = 2) AND z = 3",
        "select x@7 from a@14 where and(or((x@23) = (1@27)@23 , (y@32) = (2@36)@32)@23 , (z@43) = (3@47)@43)@22",
    ),
    ("SELECT x FROM a WHERE NOT NOT x", "syntax 26"),
    (
        "SELECT x FROM a WHERE NOT (NOT x)",
        "select x@7 from a@14 where not(not(x@31)@27)@22",
    ),
    ("SELECT x FROM a WHERE x = 1 = 2", "syntax 28"),
    (
        "SELECT x FROM a WHERE x != 1 AND y <> 2",
        "select x@7 from a@14 where and((x@22) <> (1@27)@22 , (y@33) <> (2@38)@33)@22",
    ),
    (
        "SELECT x FROM a WHERE x < 1 AND x <= 2 AND x > 3 AND x >= 4",
        "select x@7 from a@14 where and((x@22) < (1@26)@22 , (x@32) <= (2@37)@32 , (x@43) > (3@47)@43 , (x@53) >= (4@58)@53)@22",
    ),
    (
        "SELECT x FROM a WHERE x IS NULL",
        "select x@7 from a@14 where is null(x@22)@22",
    ),
    (
        "SELECT x FROM a WHERE x IS NOT NULL OR x IS TRUE OR x IS NOT FALSE OR x IS UNKNOWN",
        "select x@7 from a@14 where or(is not null(x@22)@22 , is true(x@39)@39 , is not false(x@52)@52 , is unknown(x@70)@70)@22",
    ),
    ("SELECT x FROM a WHERE x IS", "syntax 26"),
    ("SELECT x FROM a WHERE x IS 1", "syntax 27"),
    ("SELECT x FROM a WHERE x IS NULL IS NULL", "syntax 32"),
    (
        "SELECT x FROM a WHERE NOT x IS NULL",
        "select x@7 from a@14 where not(is null(x@26)@26)@22",
    ),
    (
        "SELECT x FROM a WHERE x BETWEEN 1 AND 2",
        "select x@7 from a@14 where x@22 between (1@32) and (2@38)@22",
    ),
    (
        "SELECT x FROM a WHERE x NOT BETWEEN 1 AND 2 AND y",
        "select x@7 from a@14 where and(not(x@22 between (1@36) and (2@42)@22)@22 , y@48)@22",
    ),
    ("SELECT x FROM a WHERE x BETWEEN 1", "syntax 33"),
    ("SELECT x FROM a WHERE x BETWEEN 1 OR 2", "syntax 34"),
    (
        "SELECT x FROM a WHERE x BETWEEN y + 1 AND z || 'a' = TRUE",
        "select x@7 from a@14 where (x@22 between (sum(+ y@32 , + 1@36)@32) and (cat(z@42 , 'a'@47)@42)@22) = (true@53)@22",
    ),
    (
        "SELECT x FROM a WHERE x IN (1)",
        "select x@7 from a@14 where x@22 in (1@28)@22",
    ),
    (
        "SELECT x FROM a WHERE x IN (1, 2 OR 3, NULL)",
        "select x@7 from a@14 where x@22 in (1@28 , or(2@31 , 3@36)@31 , null@39)@22",
    ),
    (
        "SELECT x FROM a WHERE x NOT IN (SELECT y FROM b)",
        "select x@7 from a@14 where not(x@22 in (select y@39 from b@46)@22)@22",
    ),
    ("SELECT x FROM a WHERE x IN ()", "syntax 28"),
    ("SELECT x FROM a WHERE x IN 1", "syntax 27"),
    ("SELECT x FROM a WHERE x NOT 1", "syntax 28"),
    ("SELECT x FROM a WHERE x NOT IN", "syntax 30"),
    (
        "SELECT x FROM a WHERE x IN (SELECT y FROM b WHERE y = a.x) = TRUE",
        "select x@7 from a@14 where (x@22 in (select y@35 from b@42 where (y@50) = (a.x@54)@50)@22) = (true@61)@22",
    ),
    ("SELECT x FROM a WHERE (SELECT y FROM b) = 1", "syntax 23"),
    (
        "SELECT x FROM a WHERE EXISTS (SELECT 1 FROM b)",
        "select x@7 from a@14 where exists(select 1@37 from b@44)@22",
    ),
    (
        "SELECT x FROM a WHERE NOT EXISTS (SELECT 1 FROM b WHERE b.y = a.x)",
        "select x@7 from a@14 where not(exists(select 1@41 from b@48 where (b.y@56) = (a.x@62)@56)@26)@22",
    ),
    ("SELECT x FROM a WHERE EXISTS (1)", "syntax 30"),
    (
        "SELECT x FROM a WHERE EXISTS (SELECT y FROM b ORDER BY y)",
        "syntax 46",
    ),
];

/// Expressions of other types.
pub const EXPRESSIONS: &[(&str, &str)] = &[
    (
        "SELECT a - b - c FROM t",
        "select sum(+ a@7 , - b@11 , - c@15)@7 from t@22",
    ),
    (
        "SELECT a - b + c * d * e FROM t",
        "select sum(+ a@7 , - b@11 , + product(c@15 , d@19 , e@23)@15)@7 from t@30",
    ),
    (
        "SELECT -a + +b, - (a + b) FROM t",
        "select sum(+ sign(- a@8)@7 , + sign(+ b@13)@12)@7 , sign(- sum(+ a@19 , + b@23)@19)@16 from t@31",
    ),
    ("SELECT - - a FROM t", "syntax 9"),
    (
        "SELECT a * -b FROM t",
        "select product(a@7 , sign(- b@12)@11)@7 from t@19",
    ),
    (
        "SELECT a || b || 'it''s' FROM t",
        "select cat(a@7 , b@12 , 'it's'@17)@7 from t@30",
    ),
    (
        "SELECT a || b + c FROM t",
        "select cat(a@7 , sum(+ b@12 , + c@16)@12)@7 from t@23",
    ),
    (
        "SELECT (a) + b FROM t",
        "select sum(+ a@8 , + b@13)@7 from t@20",
    ),
    ("SELECT ((a)) FROM t", "select a@9 from t@18"),
    ("SELECT () FROM t", "syntax 8"),
    (
        "SELECT TRUE, FALSE, NULL, 'x', 170141183460469231731687303715884105727 FROM t",
        "select true@7 , false@13 , null@20 , 'x'@26 , 170141183460469231731687303715884105727@31 from t@76",
    ),
    (
        "SELECT COALESCE(a) FROM t",
        "select coalesce(a@16)@7 from t@24",
    ),
    (
        "SELECT COALESCE(a, b + 1, NULL) FROM t",
        "select coalesce(a@16 , sum(+ b@19 , + 1@23)@19 , null@26)@7 from t@37",
    ),
    ("SELECT COALESCE() FROM t", "syntax 16"),
    ("SELECT COALESCE a FROM t", "syntax 16"),
    (
        "SELECT CASE WHEN a THEN 1 END FROM t",
        "select case(when a@17 then 1@24)@7 from t@35",
    ),
    (
        "SELECT CASE WHEN a THEN 1 WHEN b = 2 THEN 3 ELSE 4 END FROM t",
        "select case(when a@17 then 1@24 when (b@31) = (2@35)@31 then 3@42 else 4@49)@7 from t@60",
    ),
    (
        "SELECT CASE a WHEN 1 THEN 2 END AS c FROM t",
        "select case(a@12 when 1@19 then 2@26)@7 as c from t@42",
    ),
    (
        "SELECT CASE a + 1 WHEN 1 THEN 2 ELSE CASE WHEN TRUE THEN 0 END END FROM t",
        "select case(sum(+ a@12 , + 1@16)@12 when 1@23 then 2@30 else case(when true@47 then 0@57)@37)@7 from t@72",
    ),
    ("SELECT CASE END FROM t", "syntax 12"),
    ("SELECT CASE a END FROM t", "syntax 14"),
    ("SELECT CASE WHEN a THEN 1 ELSE FROM t", "syntax 31"),
    ("SELECT CASE WHEN a 1 END FROM t", "syntax 19"),
    (
        "SELECT CASE WHEN a THEN 1 ELSE 2 WHEN b THEN 3 END FROM t",
        "syntax 33",
    ),
];

/// Names and words.
pub const NAMES: &[(&str, &str)] = &[
    (
        "SELECT by, nulls, first, last, unknown FROM a",
        "select by@7 , nulls@11 , first@18 , last@25 , unknown@31 from a@44",
    ),
    (
        "SELECT x by FROM first nulls",
        "select x@7 as by from first as nulls@17",
    ),
    (
        "SELECT x FROM a ORDER BY nulls NULLS LAST",
        "select x@7 from a@14 order nulls@25 asc last",
    ),
    (
        "SELECT \"select\", \"by\" FROM \"from\"",
        "select select@7 , by@17 from from@27",
    ),
    ("SELECT x FROM a \"WHERE\"", "select x@7 from a as WHERE@14"),
    ("SELECT \"BY\" FROM a ORDER \"by\" x", "syntax 25"),
    ("SELECT x FROM a ORDER BY x \"nulls\" FIRST", "syntax 27"),
    ("SELECT x order FROM a", "syntax 9"),
    ("SELECT x FROM select", "syntax 14"),
    ("SELECT x AS from FROM a", "syntax 12"),
    ("SELECT all FROM a", "syntax 7"),
    ("SELECT FROM a", "syntax 7"),
    ("SELECT x", "syntax 8"),
    ("SELECT x FROM", "syntax 13"),
    ("SELECT", "syntax 6"),
    ("SELECT , FROM a", "syntax 7"),
    ("SELECT x, FROM a", "syntax 10"),
    ("SELECT a. FROM a", "syntax 10"),
    ("SELECT a.b.c FROM a", "syntax 10"),
    ("SELECT a.1 FROM a", "syntax 9"),
    (
        "SELECT a . b, c . * FROM a",
        "select a.b@7 , c.*@14 from a@25",
    ),
    ("SELECT * x FROM a", "syntax 9"),
    ("SELECT a.* x FROM a", "syntax 11"),
    ("SELECT x FROM a,", "syntax 16"),
];

/// Items of FROM.
pub const FROM_ITEMS: &[(&str, &str)] = &[
    (
        "SELECT x FROM a, b, c",
        "select x@7 from a@14 , b@17 , c@20",
    ),
    (
        "SELECT x FROM a JOIN b ON a.x = b.x",
        "select x@7 from (a@14 inner b@21 on (a.x@26) = (b.x@32)@26)@14",
    ),
    (
        "SELECT x FROM a INNER JOIN b c ON TRUE LEFT JOIN d ON x OUTER",
        "syntax 56",
    ),
    (
        "SELECT x FROM a INNER JOIN b c ON TRUE LEFT JOIN d ON x",
        "select x@7 from ((a@14 inner b as c@27 on true@34)@14 left d@49 on x@54)@14",
    ),
    (
        "SELECT x FROM a LEFT OUTER JOIN b ON 1 RIGHT JOIN c ON 2 RIGHT OUTER JOIN d ON 3 FULL JOIN e ON 4 FULL OUTER JOIN f ON 5",
        "select x@7 from (((((a@14 left b@32 on 1@37)@14 right c@50 on 2@55)@14 right d@74 on 3@79)@14 full e@91 on 4@96)@14 full f@114 on 5@119)@14",
    ),
    (
        "SELECT x FROM a CROSS JOIN b CROSS JOIN c",
        "select x@7 from ((a@14 cross b@27)@14 cross c@40)@14",
    ),
    ("SELECT x FROM a CROSS JOIN b ON TRUE", "syntax 29"),
    ("SELECT x FROM a CROSS b", "syntax 22"),
    ("SELECT x FROM a JOIN b", "syntax 22"),
    ("SELECT x FROM a LEFT b ON TRUE", "syntax 21"),
    ("SELECT x FROM a OUTER JOIN b ON TRUE", "syntax 16"),
    (
        "SELECT x FROM a JOIN b ON TRUE, c",
        "select x@7 from (a@14 inner b@21 on true@26)@14 , c@32",
    ),
    ("SELECT x FROM (a)", "select x@7 from a@15"),
    (
        "SELECT x FROM (a JOIN b ON TRUE)",
        "select x@7 from (a@15 inner b@22 on true@27)@15",
    ),
    (
        "SELECT x FROM (a JOIN b ON TRUE) CROSS JOIN c",
        "select x@7 from ((a@15 inner b@22 on true@27)@15 cross c@44)@14",
    ),
    (
        "SELECT x FROM a LEFT JOIN (b JOIN c ON TRUE) ON FALSE",
        "select x@7 from (a@14 left (b@27 inner c@34 on true@39)@27 on false@48)@14",
    ),
    ("SELECT x FROM (a b) c", "syntax 20"),
    (
        "SELECT x FROM ((a CROSS JOIN b) CROSS JOIN c)",
        "select x@7 from ((a@16 cross b@29)@16 cross c@43)@15",
    ),
    (
        "SELECT x FROM (SELECT y FROM b)",
        "select x@7 from (select y@22 from b@29)@14",
    ),
    (
        "SELECT x FROM (SELECT y FROM b) s",
        "select x@7 from (select y@22 from b@29) as s@14",
    ),
    (
        "SELECT x FROM (SELECT y FROM b) AS s JOIN (SELECT DISTINCT z FROM c WHERE z) ON s.y = z",
        "select x@7 from ((select y@22 from b@29) as s@14 inner (select distinct z@59 from c@66 where z@74)@42 on (s.y@80) = (z@86)@80)@14",
    ),
    (
        "SELECT x FROM ((SELECT y FROM b) s)",
        "select x@7 from (select y@23 from b@30) as s@15",
    ),
    (
        "SELECT x FROM ((SELECT y FROM b))",
        "select x@7 from (select y@23 from b@30)@15",
    ),
];

/// What is no statement, and places behind comments and texts.
pub const OTHERS: &[(&str, &str)] = &[
    ("SELECT x FROM (SELECT y FROM b", "syntax 30"),
    ("SELECT x FROM (a", "syntax 16"),
    ("SELECT x FROM (a,b)", "syntax 16"),
    ("SELECT x FROM a)", "syntax 15"),
    ("SELECT x FROM a WHERE (x = 1", "syntax 28"),
    ("SELECT x FROM a WHERE x = 1)", "syntax 27"),
    ("SELECT x FROM a WHERE x = = 1", "syntax 26"),
    ("SELECT x FROM a GROUP BY x", "syntax 16"),
    ("SELECT x FROM a LIMIT 1", "syntax 16"),
    ("SELECT x FROM a UNION SELECT y FROM b", "syntax 16"),
    ("FROM a SELECT x", "syntax 0"),
    ("x", "syntax 0"),
    (";", "syntax 0"),
    ("SELECT x FROM FROM", "syntax 14"),
    ("SELECT x y z FROM a", "syntax 11"),
    ("SELECT x FROM a b c", "syntax 18"),
    ("SELECT x FROM a /* c */ WHERE -- d", "syntax 29"),
    (
        "SELECT x FROM a WHERE a = 'x' || 'y' AND b",
        "select x@7 from a@14 where and((a@22) = (cat('x'@26 , 'y'@33)@26)@22 , b@41)@22",
    ),
];

/// The reserved words.
pub const RESERVED: &[&str] = &[
    "all", "and", "as", "asc", "between", "case", "coalesce", "cross", "desc", "distinct", "else",
    "end", "exists", "false", "from", "full", "group", "having", "in", "inner", "is", "join",
    "lateral", "left", "limit", "natural", "not", "null", "offset", "on", "or", "order", "outer",
    "right", "select", "then", "true", "union", "using", "when", "where", "with",
];

/// A whole report.
pub const REPORT: &str =
    "SELECT o.id, r.name, s.carrier, p.amt FROM customer c JOIN region r ON r.id = c.region JOIN orders o ON o.customer = c.id LEFT JOIN shipment s ON s.order_id = o.id LEFT JOIN (SELECT order_id, COALESCE(amount, 0) AS amt FROM payment) p ON p.order_id = o.id WHERE c.id = 7 AND EXISTS (SELECT 1 FROM line l WHERE l.order_id = o.id AND l.qty > 5) ORDER BY o.id";

/// The report's tree.
pub const REPORT_TREE: &str =
    "select o.id@7 , r.name@13 , s.carrier@21 , p.amt@32 from ((((customer as c@43 inner region as r@59 on (r.id@71) = (c.region@78)@71)@43 inner orders as o@92 on (o.customer@104) = (c.id@117)@104)@43 left shipment as s@132 on (s.order_id@146) = (o.id@159)@146)@43 left (select order_id@182 , coalesce(amount@201 , 0@209)@192 as amt from payment@224) as p@174 on (p.order_id@238) = (o.id@251)@238)@43 where and((c.id@262) = (7@269)@262 , exists(select 1@290 from line as l@297 where and((l.order_id@310) = (o.id@323)@310 , (l.qty@332) > (5@340)@332)@310)@275)@262 order o.id@352 asc last";

/// Where each token of the report ends, and whether the report cut there is a statement.
pub const CUTS: &[(usize, bool)] = &[
    (6, false),
    (8, false),
    (9, false),
    (11, false),
    (12, false),
    (14, false),
    (15, false),
    (19, false),
    (20, false),
    (22, false),
    (23, false),
    (30, false),
    (31, false),
    (33, false),
    (34, false),
    (37, false),
    (42, false),
    (51, true),
    (53, true),
    (58, false),
    (65, false),
    (67, false),
    (70, false),
    (72, true),
    (73, false),
    (75, true),
    (77, false),
    (79, true),
    (80, false),
    (86, true),
    (91, false),
    (98, false),
    (100, false),
    (103, false),
    (105, true),
    (106, false),
    (114, true),
    (116, false),
    (118, true),
    (119, false),
    (121, true),
    (126, false),
    (131, false),
    (140, false),
    (142, false),
    (145, false),
    (147, true),
    (148, false),
    (156, true),
    (158, false),
    (160, true),
    (161, false),
    (163, true),
    (168, false),
    (173, false),
    (175, false),
    (181, false),
    (190, false),
    (191, false),
    (200, false),
    (201, false),
    (207, false),
    (208, false),
    (210, false),
    (211, false),
    (214, false),
    (218, false),
    (223, false),
    (231, false),
    (232, false),
    (234, false),
    (237, false),
    (239, true),
    (240, false),
    (248, true),
    (250, false),
    (252, true),
    (253, false),
    (255, true),
    (261, false),
    (263, true),
    (264, false),
    (266, true),
    (268, false),
    (270, true),
    (274, false),
    (281, false),
    (283, false),
    (289, false),
    (291, false),
    (296, false),
    (301, false),
    (303, false),
    (309, false),
    (311, false),
    (312, false),
    (320, false),
    (322, false),
    (324, false),
    (325, false),
    (327, false),
    (331, false),
    (333, false),
    (334, false),
    (337, false),
    (339, false),
    (341, false),
    (342, true),
    (348, false),
    (351, false),
    (353, true),
    (354, false),
    (356, true),
];

/// A head, a piece, and how often it follows: chains of nearly 65,536 bytes.
pub const LONG: &[(&str, &str, usize)] = &[
    ("SELECT\"x\"FROM\"a\"", "JOIN\"a\"ON'b'", 5460),
    ("SELECT\"x\"FROM\"a\"", "CROSS JOIN\"a\"", 5000),
    ("SELECT\"x\"FROM\"a\"WHERE'b'", "AND'b'", 10900),
    ("SELECT\"x\"FROM\"a\"WHERE'b'", "OR'b'", 13000),
    ("SELECT 1", ",1", 32000),
    ("SELECT 1", "+1", 32000),
    ("SELECT 1", "*1", 32000),
    ("SELECT 1", "||1", 21000),
    ("SELECT\"x\"FROM\"a\"ORDER BY 1", ",1", 32000),
];
