//! Where a part of a source stands, and how it is used there.

ghost use Rattle.std.specs.Prelude.{◌≡◌, ◌+◌, ◌^◌, ◌<◌};
ghost use Rattle.vl_uses.specs.Settings as spec;

use vl_tree::tree::SelectMark;

/// Where a part of a source stands.
#[derive(Clone, Copy, Debug, PartialEq, Eq)]
pub struct Setting {
    /// Whether the place is for a constant.
    pub constant: bool,
    /// Whether it stands in an initial or a clocked process.
    pub timed: bool,
    /// How many parameters of its module are declared before it.
    pub parameters: usize,
}

/// What may stand on the left side of an assignment.
#[derive(Clone, Copy, Debug, PartialEq, Eq)]
pub enum Side {
    /// Nets: a continuous assignment (IEEE 1364-2005, clause 6.1).
    Continuous,
    /// Variables: a procedural assignment (clause 9.2).
    Procedural,
}

/// How a call of a system task or function is used (clause 17).
#[derive(Clone, Copy, Debug, PartialEq, Eq)]
pub enum Usage {
    /// As a statement.
    Task,
    /// As the whole right side of an assignment, or the whole condition of an `if`.
    Whole,
    /// Inside an expression.
    Operand,
}

/// In a constant place there.
pub(crate) fn constantly(setting: Setting) -> Setting
    ensures { result ≡ spec.constantly setting }
{
    Setting {
        constant: true,
        ..setting
    }
}

/// In an initial or a clocked process there.
pub(crate) fn timely(setting: Setting) -> Setting
    ensures { result ≡ spec.timely setting }
{
    Setting {
        timed: true,
        ..setting
    }
}

/// Outside processes and constants, behind so many declared parameters.
pub(crate) fn behind(parameters: usize) -> Setting
    ensures { result ≡ spec.behind parameters }
{
    Setting {
        constant: false,
        timed: false,
        parameters,
    }
}

/// Behind so many more parameters.
pub(crate) fn later(setting: Setting, parameters: usize) -> Setting
    requires { setting.parameters + parameters < 2 ^ 64 }
    ensures { result ≡ spec.later setting parameters }
{
    Setting {
        parameters: setting.parameters + parameters,
        ..setting
    }
}

/// Where what stands before the mark of a select stands.
pub(crate) fn before_mark(mark: SelectMark, setting: Setting) -> Setting
    ensures { result ≡ spec.before_mark mark setting }
{
    match mark {
        SelectMark::Range => constantly(setting),
        SelectMark::Up | SelectMark::Down => setting,
    }
}

/// Where the indices on a left side stand.
pub(crate) fn of_index(side: Side, setting: Setting) -> Setting
    ensures { result ≡ spec.of_index side setting }
{
    match side {
        Side::Continuous => constantly(setting),
        Side::Procedural => setting,
    }
}
