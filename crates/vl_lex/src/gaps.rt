//! Comments, attributes and directives.

ghost use Rattle.std.specs.Prelude.{◌≡◌};
ghost use Rattle.vl_tree.specs.Gaps.{opens_line as opens_line_lem, opens_block as opens_block_lem, opens_attribute as opens_attribute_lem, is_directive as is_directive_lem};
ghost use Rattle.vl_lex.specs.Reading.{directive_at as directive_at_lem};
ghost use Rattle.vl_lex.specs.View.{seen};

use crate::runs::{Run, begins, begins_with, behind, past_run};
use crate::step::Step;

#[tactic(auto, unfolding(vl_tree::specs::Gaps::opens_line))]
pub fn opens_line(text: &[u8]) -> bool
    ensures { result ≡ opens_line_lem text.now }
{
    begins_with(text, b"//")
}

#[tactic(auto, unfolding(vl_tree::specs::Gaps::opens_block))]
pub fn opens_block(text: &[u8]) -> bool
    ensures { result ≡ opens_block_lem text.now }
{
    begins_with(text, b"/*")
}

#[tactic(auto, unfolding(vl_tree::specs::Gaps::opens_attribute))]
pub fn opens_attribute(text: &[u8]) -> bool
    ensures { result ≡ opens_attribute_lem text.now }
{
    begins_with(text, b"(*") && !begins(41, past_run(Run::White, behind(text, 2)))
}

#[tactic(auto, unfolding(vl_tree::specs::Gaps::is_directive))]
fn is_directive(name: &[u8]) -> bool
    ensures { result ≡ is_directive_lem name.now }
{
    begins_with(name, b"timescale") || begins_with(name, b"default_nettype")
}

/// A directive that is passed over, behind its grave accent.
#[tactic(auto, unfolding(crate::specs::Reading::directive_at))]
pub fn directive_at(name: &[u8]) -> Step<'_>
    ensures { seen result ≡ directive_at_lem name.now }
{
    if is_directive(name) {
        Step::Gap(past_run(Run::Line, name))
    } else {
        Step::Fault(1)
    }
}
