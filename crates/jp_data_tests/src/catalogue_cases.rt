//! Texts, and the catalogue or the refusal that they give.

/// Whole texts.
pub const TEXTS: &[(&str, &str)] = &[
    ("", "bad version"),
    ("version = 2", "bad version"),
    ("version = '1'", "bad version"),
    ("version = 1.0", "bad version"),
    ("version = 1979-05-27", "bad version"),
    ("version = 2\nkind = 1", "bad version"),
    ("version = 1", "missing tables"),
    ("version = 1\nzero = 0", "unknown key zero"),
    ("version = 1\nb = 1\na = 2\n[tables]", "unknown key a"),
    ("version = 1\ntables = 3", "bad value at tables"),
    ("version = 1\n[[tables]]", "bad value at tables"),
    ("version = 1\n[tables]", "ok"),
    ("version =", "not TOML"),
    ("version = 1\nversion = 1\n[tables]", "not TOML"),
    ("version = 1\n[tables.a]\n[tables.a]", "not TOML"),
    ("version = 9223372036854775808", "not TOML"),
    ("version = 1\ntables.a = 5", "bad value at tables.a"),
    ("version = 1\n[tables.'']\nfile = 5", "bad name at tables."),
    (
        "version = 1\n[tables.xxxxxxxxxxxxxxxxxxxxxxxxxxxxxxxxxxxxxxxxxxxxxxxxxxxxxxxxxxxxxxxx]",
        "bad name at tables.xxxxxxxxxxxxxxxxxxxxxxxxxxxxxxxxxxxxxxxxxxxxxxxxxxxxxxxxxxxxxxxx",
    ),
    (
        "version = 1\n[tables.b]\nx = 1\n[tables.a]\ny = 1",
        "unknown key tables.a.y",
    ),
    (
        "version = 1\ntables.a.file = 'f'\ntables.a.rows = 1\ntables.a.columns = [{name = 'x', type = 'text'}]",
        "ok",
    ),
    (
        "version = 1\ntables = {a = {file = 'f', rows = 1, columns = [{name = 'x', type = 'text'}]}}",
        "ok",
    ),
];

/// What follows the heading of a table `a`.
pub const TABLES: &[(&str, &str)] = &[
    ("", "missing tables.a.file"),
    ("zeta = 1\nalpha = 1", "unknown key tables.a.alpha"),
    ("file = 7", "bad value at tables.a.file"),
    ("file = 'f'", "missing tables.a.rows"),
    ("file = 'f'\nrows = 'many'", "bad value at tables.a.rows"),
    ("file = 'f'\nrows = 1.0", "bad value at tables.a.rows"),
    (
        "file = 'f'\nrows = 1979-05-27",
        "bad value at tables.a.rows",
    ),
    ("file = 'f'\nrows = 0", "rows out of range at tables.a.rows"),
    (
        "file = 'f'\nrows = -1",
        "rows out of range at tables.a.rows",
    ),
    (
        "file = 'f'\nrows = 4294967296",
        "rows out of range at tables.a.rows",
    ),
    ("file = 'f'\nrows = 4294967295", "missing tables.a.columns"),
    (
        "file = 'f'\nrows = 1\ncolumns = 3",
        "bad value at tables.a.columns",
    ),
    (
        "file = 'f'\nrows = 1\ncolumns = {name = 'x'}",
        "bad value at tables.a.columns",
    ),
    (
        "file = 'f'\nrows = 1\ncolumns = []",
        "bad value at tables.a.columns",
    ),
];

/// The entries of its `columns`.
pub const ENTRIES: &[(&str, &str)] = &[
    ("3", "bad value at tables.a.columns[0]"),
    ("{}", "missing tables.a.columns[0].name"),
    ("{zz = 1, aa = 1}", "unknown key tables.a.columns[0].aa"),
    ("{name = 1}", "bad value at tables.a.columns[0].name"),
    ("{name = ''}", "bad name at tables.a.columns[0].name"),
    (
        "{name = 'xxxxxxxxxxxxxxxxxxxxxxxxxxxxxxxxxxxxxxxxxxxxxxxxxxxxxxxxxxxxxxxx'}",
        "bad name at tables.a.columns[0].name",
    ),
    (
        "{name = 'xxxxxxxxxxxxxxxxxxxxxxxxxxxxxxxxxxxxxxxxxxxxxxxxxxxxxxxxxxxxxxx'}",
        "missing tables.a.columns[0].type",
    ),
    (
        "{name = 'x', type = 1}",
        "bad value at tables.a.columns[0].type",
    ),
    (
        "{name = 'x', type = 'Number'}",
        "bad value at tables.a.columns[0].type",
    ),
    (
        "{name = 'x', type = 'text'}, {name = 'x', type = 'word'}",
        "column repeated at tables.a.columns[1].name",
    ),
    (
        "{name = 'x', type = 'text'}, {name = 'y', type = 'word'}",
        "bad value at tables.a.columns[1].type",
    ),
    (
        "{name = 'x', type = 'text', distinct = 1}",
        "unknown key tables.a.columns[0].distinct",
    ),
];

/// What follows `columns` with the columns `x` and `y`.
pub const KEYS: &[(&str, &str)] = &[
    ("", "ok"),
    ("primary_key = 'x'", "bad value at tables.a.primary_key"),
    ("primary_key = []", "bad key column at tables.a.primary_key"),
    (
        "primary_key = ['z']",
        "bad key column at tables.a.primary_key",
    ),
    (
        "primary_key = ['x', 'x']",
        "bad key column at tables.a.primary_key",
    ),
    (
        "primary_key = [1, 'z']",
        "bad value at tables.a.primary_key",
    ),
    (
        "primary_key = ['z', 1]",
        "bad key column at tables.a.primary_key",
    ),
    ("unique = 'x'", "bad value at tables.a.unique"),
    ("unique = ['x']", "bad value at tables.a.unique[0]"),
    (
        "unique = [['x'], []]",
        "bad key column at tables.a.unique[1]",
    ),
    (
        "unique = [['x'], ['y', 'x', 'y']]",
        "bad key column at tables.a.unique[1]",
    ),
    (
        "unique = [['z']]\nprimary_key = []",
        "bad key column at tables.a.primary_key",
    ),
    ("unique = []", "ok"),
];

/// Five tables, written in no order.
pub const FIVE: &str = "version = 1
[tables.d]
file = 'd.csv'
rows = 10
columns = [{name = 'v', type = 'number'}]
[tables.c]
file = 'c.csv'
rows = 10
unique = [['bid'], ['z', 'bid']]
columns = [{name = 'id', type = 'number'}, {name = 'bid', type = 'number'}, {type = 'text', name = 'z'}]
primary_key = ['id']
[tables.big]
file = 'big.csv'
rows = 1000000
columns = [{name = 'id', type = 'number'}, {name = 'ref', type = 'number'}]
primary_key = ['id']
[tables.b]
file = 'b.csv'
rows = 1000
columns = [{name = 'id', type = 'number'}, {name = 'aid', type = 'number'}, {name = 'y', type = 'boolean'}]
primary_key = ['id']
[tables.a]
file = 'a.csv'
rows = 100
columns = [{name = 'id', type = 'number'}, {name = 'x', type = 'number'}]
primary_key = ['id']
";
