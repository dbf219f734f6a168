//! The budget that words ask for.
ghost use Rattle.std.specs.Prelude.{◌≡◌, ◌≤◌, All};
ghost use Rattle.std.specs.Option.{unwrap_or};
ghost use Rattle.chex_top.specs.Budgets as spec;

use chex_words::StoreWords;
use plan_type::Budget;

/// The sizes of a block that are tried where none is given, in bytes.
const SIZES: [u64; 9] = [
    4096, 8192, 16384, 32768, 65536, 131_072, 262_144, 524_288, 1_048_576,
];

/// The budget in whole blocks, or the count of its blocks where they are more than 1,024. Where no
/// size of a block is given, it is the least power of two from 4,096 to 1,048,576 bytes of which
/// there are at most 1,024, and the greatest where there is none.
pub fn budget_of(words: &StoreWords) -> Result<Budget, u64>
    requires { spec.IsStore words.now }
    ensures { spec.IsBudgetFor words.now result }
{
    let block = block_of(words);
    let most = words.budget / block;
    if most > 1024 {
        return Err(most);
    }
    Ok(Budget {
        block: block as u32,
        most: most as u32,
        save: words.save as u32,
        load: words.load as u32,
    })
}

/// The bytes of a block.
fn block_of(words: &StoreWords) -> u64
    requires { spec.IsStore words.now }
    ensures value { result ≡ spec.block_of words.now }
    ensures small { 256 ≤ result }
    ensures large { result ≤ 1048576 }
{
    match words.block {
        Some(block) => block,
        None => first_size(words.budget, &SIZES).unwrap_or(1_048_576),
    }
}

/// The first of these sizes of which the budget has at most 1,024 blocks.
fn first_size(budget: u64, sizes: &[u64]) -> Option<u64>
    requires { All (λ size. (256 ≤ size) × (size ≤ 1048576)) sizes.now }
    ensures value { result ≡ spec.first_size budget sizes.now }
    ensures within { (256 ≤ unwrap_or result 256) × (unwrap_or result 256 ≤ 1048576) }
{
    match sizes {
        [] => None,
        [size, rest @ ..] => {
            if budget / *size <= 1024 {
                Some(*size)
            } else {
                first_size(budget, rest)
            }
        }
    }
}
