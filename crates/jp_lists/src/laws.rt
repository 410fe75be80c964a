ghost use Rattle.std.specs.Prelude.{◌≡◌, ℕ, List, All, Contains, IsSome, map, length};
ghost use Rattle.jp_eval.specs.Evaluation.{CanEvaluate};
ghost use Rattle.jp_frame.specs.Maps.{Map};
ghost use Rattle.jp_lists.specs.Asked.{AreMeantAlike, HasRowsAlike, HasOwnSublinks, exprs_of_step};
ghost use Rattle.jp_lists.specs.Lists.{list_of, listing, sublink_rows, around_block, run_in, listed_block};
ghost use Rattle.jp_joins.specs.Conditions.{CanJoin, CanLookUp};
ghost use Rattle.jp_joins.specs.Meant.{Meant};
ghost use Rattle.jp_laws.specs.SameCells.{IsSameCell, IsSamePresence};
ghost use Rattle.jp_lists.specs.Seen.{AreSeenAlike, FitsOutside, IsInside, IsEvaluated, IsTested, HasPlaces, HasSameRows};
ghost use Rattle.jp_lists.specs.Steps.{Run, meant_of, method_list, tree_list};
ghost use Rattle.jp_problem.specs.Keys.{key_of};
ghost use Rattle.jp_problem.specs.StepClauses.{scan_clauses};
ghost use Rattle.jp_problem.specs.Trees.{Tree, IsLegalTree, set_of};
ghost use Rattle.jp_problem.specs.declared.types.Method.{Method};
ghost use Rattle.jp_problem.specs.declared.types.Problem.{Problem};
ghost use Rattle.jp_problem.specs.declared.types.Step.{Step};
ghost use Rattle.jp_query.specs.declared.Expr.{Expr};
ghost use Rattle.jp_query.specs.Meaning.{Row, Env, holds, value_given, with_rows};
ghost use Rattle.jp_query.specs.Outermost.{outermost};
ghost use Rattle.jp_query.specs.Scopes.{Scope};
ghost use Rattle.jp_query.specs.Tables.{TableRows, IsRowOf, Belong, rows_of_tables};
ghost use Rattle.jp_tree.specs.BlockParts.{exprs_in, own_columns, own_placeholders, item_blocks, IsBlockAt, Uses};
ghost use Rattle.jp_tree.specs.Prepared.{IsWhole, output_column};
ghost use Rattle.jp_tree.specs.declared.prepared.Block.{Block};
ghost use Rattle.jp_tree.specs.declared.prepared.Prepared.{Prepared};

/// A law: with given rows for its sublinks the value of an expression depends on the environment only by the cells of its
/// columns and by which relations of its placeholders have a row, those in sublinks' queries aside, and on the rows.
pub fn a_value_with_given_rows_depends_on_its_own_columns()
    ensures { (rows : ℕ → List Row) (others : ℕ → List Row) (expr : Expr) (env : Env) (other : Env) →
        All (IsSameCell env other) (own_columns expr) → All (IsSamePresence env other) (own_placeholders expr) → All (HasSameRows rows others) (outermost expr) →
        value_given rows expr env ≡ value_given others expr other }
{}

/// A law: what a block lists depends on the environment around it by the cells of its outer references and by which
/// relations of placeholders, but for those of its own items, have a row. A block that sees nothing lists the same anywhere.
pub fn a_list_depends_on_what_its_block_sees()
    ensures rows { (prepared : Prepared) (tables : ℕ → List Row) (number : ℕ) (env : Env) (other : Env) →
        IsWhole prepared → AreSeenAlike prepared number env other → list_of prepared tables number env ≡ list_of prepared tables number other }
{}

/// A law: where the outer references of a block fit, its rows have one value for each output, NULL or of the output's type
/// and a number within its bound. Its tuples, and the environments of any maps of its items, give each relation no row or one
/// of its visible columns, and the others what they have around the block.
pub fn lists_fit()
    ensures rows { (prepared : Prepared) (whole : IsWhole prepared) (tables : TableRows) (number : ℕ) (block : Block) (env : Env) →
        Belong whole.schema tables → IsBlockAt prepared number block → FitsOutside prepared whole.scope number env →
        All (IsRowOf (map (output_column whole.schema whole.scope) block.columns)) (list_of prepared (rows_of_tables tables) number env) }
    ensures tuples { (prepared : Prepared) (whole : IsWhole prepared) (tables : TableRows) (number : ℕ) (block : Block) (env : Env) →
        Belong whole.schema tables → IsBlockAt prepared number block → FitsOutside prepared whole.scope number env →
        All (IsInside whole.scope env) (listing prepared (rows_of_tables tables) number env).tuples }
    ensures maps { (prepared : Prepared) (whole : IsWhole prepared) (tables : TableRows) (number : ℕ) (block : Block) (env : Env) (m : Map) →
        Belong whole.schema tables → IsBlockAt prepared number block → FitsOutside prepared whole.scope number env →
        IsInside whole.scope (around_block block env) ((run_in prepared (rows_of_tables tables) block env).environment m) }
{}

/// A law: where the outer references of a block fit, those of the blocks that it uses fit too, around it for its items and
/// inside it for its sublinks; and inside it each of its expressions can be evaluated, with the rows that the blocks of its
/// sublinks give there. The pair of two tuples that are inside is inside.
pub fn what_a_block_evaluates_fits()
    ensures items { (prepared : Prepared) (whole : IsWhole prepared) (number : ℕ) (inner : ℕ) (block : Block) (env : Env) →
        IsBlockAt prepared number block → FitsOutside prepared whole.scope number env → Contains (item_blocks block) inner →
        FitsOutside prepared whole.scope inner (around_block block env) }
    ensures behind { (prepared : Prepared) (whole : IsWhole prepared) (number : ℕ) (inner : ℕ) (block : Block) (env : Env) (inside : Env) →
        IsBlockAt prepared number block → FitsOutside prepared whole.scope number env → IsInside whole.scope (around_block block env) inside → Uses prepared block inner →
        FitsOutside prepared whole.scope inner inside }
    ensures values { (prepared : Prepared) (whole : IsWhole prepared) (tables : TableRows) (number : ℕ) (block : Block) (env : Env) (inside : Env) →
        Belong whole.schema tables → IsBlockAt prepared number block → FitsOutside prepared whole.scope number env → IsInside whole.scope (around_block block env) inside →
        All (IsEvaluated (sublink_rows prepared.blocks (listing prepared (rows_of_tables tables)) inside) inside) (exprs_in block) }
    ensures pairs { (scope : Scope) (outer : Env) (left : Env) (right : Env) (rels : ℕ) → IsInside scope outer left → IsInside scope outer right → IsInside scope outer (with_rows rels left right) }
{}

/// A law: what a plan's scans and steps test can be evaluated at each map that they take or form, and is boolean. So each step
/// of a legal tree can be run over what its sides list, and its tuples be looked up by a key where it has one.
pub fn steps_of_a_plan_can_be_run()
    ensures scan { (prepared : Prepared) (whole : IsWhole prepared) (tables : TableRows) (number : ℕ) (block : Block) (env : Env) (i : ℕ) (m : Map) →
        Belong whole.schema tables → IsBlockAt prepared number block → FitsOutside prepared whole.scope number env →
        All (IsTested (run_in prepared (rows_of_tables tables) block env) m) (scan_clauses block.problem i) }
    ensures join { (prepared : Prepared) (whole : IsWhole prepared) (tables : TableRows) (number : ℕ) (block : Block) (env : Env) (how : Method) (kind : Step) (left : Tree) (right : Tree) →
        Belong whole.schema tables → IsBlockAt prepared number block → FitsOutside prepared whole.scope number env → IsLegalTree block.problem (Tree.Join how kind left right) →
        CanJoin (meant_of (run_in prepared (rows_of_tables tables) block env) block.problem (set_of left) (set_of right) kind) kind
        (tree_list (run_in prepared (rows_of_tables tables) block env) block.problem left) (tree_list (run_in prepared (rows_of_tables tables) block env) block.problem right) }
    ensures look_up { (prepared : Prepared) (whole : IsWhole prepared) (tables : TableRows) (number : ℕ) (block : Block) (env : Env) (how : Method) (kind : Step) (left : Tree) (right : Tree) →
        Belong whole.schema tables → IsBlockAt prepared number block → FitsOutside prepared whole.scope number env → IsLegalTree block.problem (Tree.Join how kind left right) → IsSome (key_of block.problem (set_of left) (set_of right) kind) →
        CanLookUp (meant_of (run_in prepared (rows_of_tables tables) block env) block.problem (set_of left) (set_of right) kind)
        (tree_list (run_in prepared (rows_of_tables tables) block env) block.problem left) (tree_list (run_in prepared (rows_of_tables tables) block env) block.problem right) }
    ensures width { (run : Run) (problem : Problem) (tree : Tree) → All (HasPlaces (length problem.items)) (tree_list run problem tree) }
{}

/// A law: an expression asks for the rows of its own sublinks alone. With the same rows of these a list of conditions holds
/// where it did, and an expression can be evaluated where it could be.
pub fn an_expression_asks_for_the_rows_of_its_sublinks_alone()
    ensures conditions { (rows : ℕ → List Row) (others : ℕ → List Row) (conds : List Expr) (env : Env) → All (HasRowsAlike rows others) conds →
        holds (map (value_given rows) conds) env ≡ holds (map (value_given others) conds) env }
    ensures evaluated { (rows : ℕ → List Row) (others : ℕ → List Row) (expr : Expr) (env : Env) → HasRowsAlike rows others expr → CanEvaluate others expr env → CanEvaluate rows expr env }
{}

/// A law: a step asks for the rows of the sublinks in its key, in what a match makes true and in its filters alone. With the
/// same rows of these it lists the same maps, and can be run and looked up where it could be.
pub fn a_step_asks_for_the_rows_of_its_sublinks_alone()
    ensures list { (how : Method) (one : Meant) (two : Meant) (left : List Map) (right : List Map) → AreMeantAlike one two → method_list how one left right ≡ method_list how two left right }
    ensures join { (kind : Step) (one : Meant) (two : Meant) (left : List Map) (right : List Map) → AreMeantAlike one two → CanJoin two kind left right → CanJoin one kind left right }
    ensures look_up { (one : Meant) (two : Meant) (left : List Map) (right : List Map) → AreMeantAlike one two → CanLookUp two left right → CanLookUp one left right }
{}

/// A law: the sublinks in what the scans and steps of a block's plan test, classes and keys included, are the block's.
pub fn what_a_plan_tests_stands_in_its_block()
    ensures scan { (block : Block) (i : ℕ) → All (HasOwnSublinks block) (scan_clauses block.problem i) }
    ensures step { (run : Run) (block : Block) (left : ℕ) (right : ℕ) (kind : Step) → All (HasOwnSublinks block) (exprs_of_step (meant_of run block.problem left right kind)) }
{}

/// A law: what a block gives is made of what the blocks behind it give.
pub fn a_block_gives_what_its_plan_lists()
    ensures { (prepared : Prepared) (tables : ℕ → List Row) (number : ℕ) (block : Block) (env : Env) → IsWhole prepared → IsBlockAt prepared number block →
        listing prepared tables number env ≡ listed_block prepared.blocks prepared.pool.nodes tables (listing prepared tables) block env }
{}
