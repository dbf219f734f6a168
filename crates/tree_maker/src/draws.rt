//! The generator's word, which each draw renews.
ghost use Rattle.std.specs.Prelude.{◌≡◌, ◌<◌};
ghost use Rattle.tree_maker.specs.Generator.{next, among};

/// Draws a number below `count`.
#[tactic(auto, unfolding(crate::specs::Generator::among))]
pub fn draw(word: &mut u64, count: u32) -> u32
    requires { 0 < count }
    ensures word { word.new ≡ next word.old }
    ensures value { result ≡ among count (next word.old) }
    ensures below { result < count }
{
    let next = renewed(*word);
    *word = next;
    ((next >> 33) % u64::from(count)) as u32
}

/// The word after this one.
#[tactic(auto, unfolding(crate::specs::Generator::next))]
fn renewed(word: u64) -> u64
    ensures { result ≡ next word }
{
    word.wrapping_mul(6_364_136_223_846_793_005)
        .wrapping_add(1_442_695_040_888_963_407)
}
