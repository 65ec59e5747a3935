// The fields, locks and expanders that there are, by their codes.
ghost use Rattle.std.specs.Prelude.{◌≡◌, None};
ghost use Rattle.refusal.specs.Rows.{Tells, row};
ghost use Rattle.suites.specs.Kinds.{named, field_code, lock_code, expander_code};
ghost use Rattle.refusal.specs.declared.Refusal.TheVariants.{Code};

use refusal::Refusal;

#[derive(Clone, Copy, Debug, PartialEq, Eq)]
pub enum FieldKind {
    Gf256 = 1,
    Mod251 = 2,
}

#[derive(Clone, Copy, Debug, PartialEq, Eq)]
pub enum LockKind {
    Weight = 1,
    Regular = 2,
}

#[derive(Clone, Copy, Debug, PartialEq, Eq)]
pub enum ExpanderKind {
    Aes = 1,
    Shake = 2,
}

// Each kind is read from its code by a `match` of its own: one for all three would need a trait over them and a table for each.
impl TryFrom<u8> for FieldKind {
    type Error = Refusal;

    ghost try_from_gives = { λ code r. Tells (row (named code) Code None) (λ kind. field_code kind ≡ code) r };

    fn try_from(code: u8) -> Result<FieldKind, Refusal> {
        match code {
            1 => Ok(FieldKind::Gf256),
            2 => Ok(FieldKind::Mod251),
            _ => Err(Refusal::Code),
        }
    }
}

impl TryFrom<u8> for LockKind {
    type Error = Refusal;

    ghost try_from_gives = { λ code r. Tells (row (named code) Code None) (λ kind. lock_code kind ≡ code) r };

    fn try_from(code: u8) -> Result<LockKind, Refusal> {
        match code {
            1 => Ok(LockKind::Weight),
            2 => Ok(LockKind::Regular),
            _ => Err(Refusal::Code),
        }
    }
}

impl TryFrom<u8> for ExpanderKind {
    type Error = Refusal;

    ghost try_from_gives = { λ code r. Tells (row (named code) Code None) (λ kind. expander_code kind ≡ code) r };

    fn try_from(code: u8) -> Result<ExpanderKind, Refusal> {
        match code {
            1 => Ok(ExpanderKind::Aes),
            2 => Ok(ExpanderKind::Shake),
            _ => Err(Refusal::Code),
        }
    }
}
