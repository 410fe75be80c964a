ghost use Rattle.std.specs.Prelude.{◌≡◌, All, IfOk, map};
ghost use Rattle.jp_items.specs.Scenes.{IsListed};
ghost use Rattle.jp_joins.specs.Lending.{numbers_in_all};
ghost use Rattle.jp_tree.specs.BlockParts.{sublinks_of as sublinks};
ghost use Rattle.jp_outputs.specs.Exprs.{lent_exprs, sublink_number};

use crate::exprs::block_exprs;
use jp_base::{Memory, SubNo};
use jp_joins::numbers_of_one;
use jp_query::Expr;
use jp_tree::Block;
use std::alloc::Global;

/// The numbers of the block's sublinks that stand in no other sublink's query.
pub fn sublinks_of(alloc: Global, block: &Block) -> Result<Vec<SubNo>, Memory>
    ensures numbers { IfOk result (λ v. v.items ≡ map sublink_number (sublinks block.now)) }
    ensures listed { IfOk result (λ v. All (IsListed v.items) (sublinks block.now)) }
{
    let exprs = block_exprs(alloc, block)?;
    let numbers = numbers_of_all(alloc, exprs.as_slice())?;
    Ok(numbers)
}

/// The numbers of the sublinks of expressions, in the order in which they are written.
pub fn numbers_of_all(alloc: Global, exprs: &[&Expr]) -> Result<Vec<SubNo>, Memory>
    ensures { IfOk result (λ v. v.items ≡ numbers_in_all (lent_exprs exprs.now)) }
{
    let mut list = Vec::new(alloc);
    'exprs: for expr in exprs {
        let numbers = numbers_of_one(alloc, expr)?;
        list.extend_from_slice(numbers.as_slice())?;
    }
    Ok(list)
}
