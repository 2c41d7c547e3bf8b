//! What follows from the definition alone: a report can be read back.

ghost use Rattle.std.specs.Prelude.{◌≡◌, List, map};
ghost use Rattle.std.specs.List.{AllByRecursion};
ghost use Rattle.host_text.specs.declared.block.Block.{Block as Said};
ghost use Rattle.host_text.specs.declared.block.FreeLine.{FreeLine as Line};
ghost use Rattle.host_text.specs.Report.{report};
ghost use Rattle.host_text.specs.Readable.{IsReadable, IsReply};

/// Reports with the same bytes say the same of the same tenants: names are words, and the kind of a
/// refusal is one line.
pub fn blocks_can_be_read_back()
    ensures { (blocks others : List Said) (free more : List Line) → AllByRecursion IsReadable blocks → AllByRecursion IsReadable others → report blocks free ≡ report others more → blocks ≡ others }
{}

/// Reports of the same orders with the same bytes have the same replies.
pub fn replies_can_be_read_back()
    ensures { (blocks others : List Said) (free more : List Line) → AllByRecursion IsReadable blocks → AllByRecursion IsReadable others →
        map (λ f. f.words) free ≡ map (λ f. f.words) more → AllByRecursion (λ f. IsReply f.reply) free → AllByRecursion (λ f. IsReply f.reply) more →
        report blocks free ≡ report others more → free ≡ more }
{}
