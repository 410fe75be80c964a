ghost use Rattle.std.specs.Prelude.{◌≡◌};
ghost use Rattle.jp_items.specs.Scenes.{is_listed};

use crate::{Around, Sight};
use jp_base::{Cell, RelNo, RelSet, SubNo};
use jp_joins::{Tuple, TupleEnv};
use jp_query::{Expr, JoinKind};
use jp_tree::Prepared;

/// What the expressions of a block are evaluated in: what its tuples stand for, and the sublinks whose rows are given where
/// they are evaluated. All other sublinks have no rows.
#[derive(Clone, Copy)]
pub struct Scene<'e> {
    pub prepared: &'e Prepared,
    pub sight: Sight<'e>,
    pub sublinks: &'e [SubNo],
}

/// A step of a block in its scene. The sides of the key have the left one first.
#[derive(Clone, Copy)]
pub struct SceneStep<'e> {
    pub scene: Scene<'e>,
    pub kind: JoinKind,
    pub key: Option<(&'e Expr, &'e Expr)>,
    pub on: &'e [Expr],
    pub filters: &'e [Expr],
}

impl TupleEnv for SceneStep<'_> {
    ghost use Rattle.jp_items.specs.Scenes.{meant_by};

    ghost meant = { meant_by };

    fn join_kind(&self) -> JoinKind {
        self.kind
    }

    fn cell(&self, tuple: Tuple<'_>, rel: RelNo, col: u32) -> Cell<'_> {
        self.scene.sight.cell(tuple, rel, col)
    }

    fn present(&self, tuple: Tuple<'_>) -> RelSet {
        self.scene.sight.present(tuple)
    }

    fn key(&self) -> Option<(&Expr, &Expr)> {
        self.key
    }

    fn on(&self) -> &[Expr] {
        self.on
    }

    fn filters(&self) -> &[Expr] {
        self.filters
    }
}

/// The scene, lent once more.
pub fn lent_scene<'e>(scene: &Scene<'e>) -> Scene<'e>
    ensures { result ≡ scene.now }
{
    let around = Around {
        cells: scene.sight.around.cells,
        present: scene.sight.around.present,
    };
    let sight = Sight {
        tables: scene.sight.tables,
        around,
        sources: scene.sight.sources,
        layout: scene.sight.layout,
    };
    Scene {
        prepared: scene.prepared,
        sight,
        sublinks: scene.sublinks,
    }
}

/// Whether the number is one of the list.
pub fn is_listed(numbers: &[SubNo], sub: SubNo) -> bool
    ensures { result ≡ is_listed numbers.now sub }
{
    'numbers: for number in numbers {
        if *number == sub {
            return true;
        }
    }
    false
}
