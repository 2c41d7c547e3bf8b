//! The sources of the demonstration.

ghost use Rattle.std.specs.Prelude.{◌≡◌, ◌++◌, IfOk, OnOk};
ghost use Rattle.host_demo.specs.Texts as t;

use crate::script::push_number;
use std::alloc::{AllocError, Global};

/// Adds the declarations of the source of the tenant of a number.
fn push_declarations(alloc: Global, number: u32, text: &mut Vec<u8>) -> Result<(), AllocError>
    ensures { OnOk result (text.new.items ≡ text.old.items ++ t.declarations number) }
{
    text.extend_from_slice(b"  reg [31:0] s = ")?;
    push_number(alloc, number, text)?;
    text.extend_from_slice(b";\n")?;
    text.extend_from_slice(b"  reg [7:0] p = 0;\n  reg [31:0] m [0:255];\n  integer k;\n")?;
    text.extend_from_slice(b"  initial for (k = 0; k < 256; k = k + 1) m[k] = k * ")?;
    push_number(alloc, number, text)?;
    text.extend_from_slice(b";\n")?;
    Ok(())
}

/// Adds what is done at each rising edge of the clock.
fn push_steps(text: &mut Vec<u8>) -> Result<(), AllocError>
    ensures { OnOk result (text.new.items ≡ text.old.items ++ t.steps) }
{
    text.extend_from_slice(b"  always @(posedge clk) begin\n")?;
    text.extend_from_slice(b"    s <= s * 32'd1664525 + 32'd1013904223;\n")?;
    text.extend_from_slice(b"    m[p] <= m[s[7:0]] ^ s;\n")?;
    text.extend_from_slice(b"    p <= p + 1;\n")?;
    text.extend_from_slice(b"    if (p == 8'd255) $display(\"%h\", s);\n")?;
    text.extend_from_slice(b"  end\n")?;
    Ok(())
}

/// The source of the tenant of a number: a generator of numbers that begins with it, and that mixes them into a memory.
pub(crate) fn source_text(alloc: Global, number: u32) -> Result<Vec<u8>, AllocError>
    ensures { IfOk result (λ text. text.items ≡ t.source number) }
{
    let mut text = Vec::new(alloc);
    text.extend_from_slice(b"module t(input wire clk);\n")?;
    push_declarations(alloc, number, &mut text)?;
    push_steps(&mut text)?;
    text.extend_from_slice(b"endmodule\n")?;
    Ok(text)
}
