//! The words of free orders.

ghost use Rattle.std.specs.Prelude.{◌≡◌, ◌<◌, ◌∷◌, [], IfOk, length, option_map, slice_get, unwrap_or};
ghost use Rattle.host_judge.specs.host_text.specs.declared.script.Free.TheVariants as free;
ghost use Rattle.host_judge.specs.host_text.specs.Laws.{IsFree};
ghost use Rattle.host_judge.specs.host_form.specs.Orders.{order_words, tenant_name};

use host_judge::script::{Free, Script, TenantLine};
use std::alloc::{AllocError, Global};
use ten_files::name::copy_text;
use ten_files::{Items, Text};

/// A text of these bytes.
fn text_of(alloc: Global, bytes: &[u8]) -> Result<Text, AllocError>
    ensures { IfOk result (λ t. t ≡ bytes.now) }
{
    let bytes = Vec::from_slice(alloc, bytes)?;
    Ok(Items::from_vec(bytes))
}

/// The first words of an order: its own, and the tenant's name.
fn first_words(
    alloc: Global,
    word: &[u8],
    tenants: &[TenantLine],
    n: u32,
) -> Result<Vec<Text>, AllocError>
    requires { n < length tenants.now }
    ensures { IfOk result (λ words. words.items ≡ word.now ∷ unwrap_or (option_map (λ t. t.name) (slice_get tenants.now n)) [] ∷ []) }
{
    let mut words = Vec::new(alloc);
    words.push(text_of(alloc, word)?)?;
    words.push(copy_text(alloc, &tenants[n as usize].name)?)?;
    Ok(words)
}

/// The words of a move.
fn move_words(
    alloc: Global,
    script: &Script,
    tenant: u32,
    fabric: u32,
) -> Result<Items<Text>, AllocError>
    requires tenant { tenant < length script.now.tenants }
    requires fabric { fabric < length script.now.fabrics }
    ensures { IfOk result (λ words. words ≡ order_words script.now (free.Move tenant fabric)) }
{
    let fabrics = script.fabrics.as_slice();
    let mut words = first_words(alloc, b"move", script.tenants.as_slice(), tenant)?;
    words.push(copy_text(alloc, &fabrics[fabric as usize].name)?)?;
    Ok(Items::from_vec(words))
}

/// The words of a save.
fn save_words(
    alloc: Global,
    script: &Script,
    tenant: u32,
    name: &Text,
) -> Result<Items<Text>, AllocError>
    requires { tenant < length script.now.tenants }
    ensures { IfOk result (λ words. words ≡ order_words script.now (free.Save tenant name.now)) }
{
    let mut words = first_words(alloc, b"save", script.tenants.as_slice(), tenant)?;
    words.push(copy_text(alloc, name)?)?;
    Ok(Items::from_vec(words))
}

/// The words of a stop or a watch.
fn plain_words(
    alloc: Global,
    word: &[u8],
    script: &Script,
    tenant: u32,
) -> Result<Items<Text>, AllocError>
    requires { tenant < length script.now.tenants }
    ensures { IfOk result (λ words. words ≡ word.now ∷ tenant_name script.now tenant ∷ []) }
{
    let words = first_words(alloc, word, script.tenants.as_slice(), tenant)?;
    Ok(Items::from_vec(words))
}

/// The words of an order, as the script has them.
pub(crate) fn words_of(
    alloc: Global,
    script: &Script,
    order: &Free,
) -> Result<Items<Text>, AllocError>
    requires { IsFree (length script.now.fabrics) (length script.now.tenants) order.now }
    ensures { IfOk result (λ words. words ≡ order_words script.now order.now) }
{
    match order {
        Free::Move(tenant, fabric) => move_words(alloc, script, *tenant, *fabric),
        Free::Stop(tenant) => plain_words(alloc, b"stop", script, *tenant),
        Free::Save(tenant, name) => save_words(alloc, script, *tenant, name),
        Free::Watch(tenant) => plain_words(alloc, b"watch", script, *tenant),
    }
}
