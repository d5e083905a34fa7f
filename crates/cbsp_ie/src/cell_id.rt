//! The identification of one cell or of several.

ghost use Rattle.std.specs.Prelude.{◌≡◌, ◌≤◌, ◌++◌, OnOk, OnErr, length};
ghost use Rattle.std.specs.Cmp.{decided, partial_equiv_from_equiv};
ghost use Rattle.cbsp_ie.specs.CellId.{IsCellId, IsPlmn, names, form_of, id_at, id_eq, id_octets};
ghost use Rattle.cbsp_ie.specs.Equality.{id_decides};
ghost use Rattle.cbsp_ie.specs.Form.{size_of};

use crate::form::Form;
use byteorder::{BigEndian, ByteOrder};
use common::Cell;
use std::alloc::AllocError;

/// An identification, in one of the six forms. A PLMN is its three octets as they are sent
/// (3GPP TS 24.008, 10.5.1.3), and is compared as octets.
#[derive(Clone, Copy, Debug)]
pub enum CellId {
    Global { plmn: [u8; 3], lac: u16, ci: u16 },
    LacCi { lac: u16, ci: u16 },
    Ci { ci: u16 },
    Lai { plmn: [u8; 3], lac: u16 },
    Lac { lac: u16 },
    All,
}

impl CellId {
    /// The form that a list with this identification announces.
    pub fn form(&self) -> Form
        ensures { result ≡ form_of self.now }
    {
        match self {
            CellId::Global { .. } => Form::Global,
            CellId::LacCi { .. } => Form::LacCi,
            CellId::Ci { .. } => Form::Ci,
            CellId::Lai { .. } => Form::Lai,
            CellId::Lac { .. } => Form::Lac,
            CellId::All => Form::All,
        }
    }

    /// Whether the cell is one that is identified, where the network asked for is `plmn`. The cell
    /// identity alone names the cell of that identity in every location area.
    pub fn names(&self, plmn: [u8; 3], cell: Cell) -> bool
        ensures { result ≡ names plmn self.now cell }
    {
        match self {
            CellId::Global { plmn: own, lac, ci } => {
                *own == plmn && *lac == cell.lac && *ci == cell.ci
            }
            CellId::LacCi { lac, ci } => *lac == cell.lac && *ci == cell.ci,
            CellId::Ci { ci } => *ci == cell.ci,
            CellId::Lai { plmn: own, lac } => *own == plmn && *lac == cell.lac,
            CellId::Lac { lac } => *lac == cell.lac,
            CellId::All => true,
        }
    }

    /// Reads an identification of the form from the front of the octets.
    pub(crate) fn read(form: Form, octets: &[u8]) -> CellId
        requires { size_of form ≤ length octets.now }
        ensures { result ≡ id_at form octets.now }
    {
        match form {
            Form::Global => {
                let (plmn, numbers) = octets.split_at(3);
                let (lac, ci) = numbers.split_at(2);
                CellId::Global {
                    plmn: [plmn[0], plmn[1], plmn[2]],
                    lac: BigEndian::read_u16(lac),
                    ci: BigEndian::read_u16(ci),
                }
            }
            Form::LacCi => {
                let (lac, ci) = octets.split_at(2);
                CellId::LacCi {
                    lac: BigEndian::read_u16(lac),
                    ci: BigEndian::read_u16(ci),
                }
            }
            Form::Ci => CellId::Ci {
                ci: BigEndian::read_u16(octets),
            },
            Form::Lai => {
                let (plmn, lac) = octets.split_at(3);
                CellId::Lai {
                    plmn: [plmn[0], plmn[1], plmn[2]],
                    lac: BigEndian::read_u16(lac),
                }
            }
            Form::Lac => CellId::Lac {
                lac: BigEndian::read_u16(octets),
            },
            Form::All => CellId::All,
        }
    }

    /// Appends the octets of the identification. At an `Err` nothing is appended.
    pub(crate) fn write(&self, out: &mut Vec<u8>) -> Result<(), AllocError>
        ensures ok { OnOk result (out.new.items ≡ out.old.items ++ id_octets self.now) }
        ensures err { OnErr result (out.new.items ≡ out.old.items) }
    {
        match self {
            CellId::Global { plmn, lac, ci } => {
                let [first, second, third] = *plmn;
                let [lac_high, lac_low] = lac.to_be_bytes();
                let [ci_high, ci_low] = ci.to_be_bytes();
                out.extend_from_slice(&[first, second, third, lac_high, lac_low, ci_high, ci_low])
            }
            CellId::LacCi { lac, ci } => {
                let [lac_high, lac_low] = lac.to_be_bytes();
                let [ci_high, ci_low] = ci.to_be_bytes();
                out.extend_from_slice(&[lac_high, lac_low, ci_high, ci_low])
            }
            CellId::Ci { ci } => out.extend_from_slice(&ci.to_be_bytes()),
            CellId::Lai { plmn, lac } => {
                let [first, second, third] = *plmn;
                let [lac_high, lac_low] = lac.to_be_bytes();
                out.extend_from_slice(&[first, second, third, lac_high, lac_low])
            }
            CellId::Lac { lac } => out.extend_from_slice(&lac.to_be_bytes()),
            CellId::All => Ok(()),
        }
    }

    // That its numbers are in their ranges is known once they are read.
    pub(crate) fn ranges(&self)
        ensures { IsCellId self.now }
    {
        match self {
            CellId::Global { plmn, lac, ci } => {
                plmn_ranges(plmn);
                let _lac = *lac;
                let _ci = *ci;
            }
            CellId::LacCi { lac, ci } => {
                let _lac = *lac;
                let _ci = *ci;
            }
            CellId::Ci { ci } => {
                let _ci = *ci;
            }
            CellId::Lai { plmn, lac } => {
                plmn_ranges(plmn);
                let _lac = *lac;
            }
            CellId::Lac { lac } => {
                let _lac = *lac;
            }
            CellId::All => {}
        }
    }
}

fn plmn_ranges(plmn: &[u8; 3])
    ensures { IsPlmn plmn.now }
{
    let [_first, _second, _third] = *plmn;
}

impl PartialEq for CellId {
    ghost eq = { id_eq };

    ghost laws = { partial_equiv_from_equiv (decided id_eq id_decides) };

    fn eq(&self, other: &CellId) -> bool {
        match self {
            CellId::Global { plmn, lac, ci } => match other {
                CellId::Global {
                    plmn: plmn2,
                    lac: lac2,
                    ci: ci2,
                } => *plmn == *plmn2 && *lac == *lac2 && *ci == *ci2,
                _ => false,
            },
            CellId::LacCi { lac, ci } => match other {
                CellId::LacCi { lac: lac2, ci: ci2 } => *lac == *lac2 && *ci == *ci2,
                _ => false,
            },
            CellId::Ci { ci } => match other {
                CellId::Ci { ci: ci2 } => *ci == *ci2,
                _ => false,
            },
            CellId::Lai { plmn, lac } => match other {
                CellId::Lai {
                    plmn: plmn2,
                    lac: lac2,
                } => *plmn == *plmn2 && *lac == *lac2,
                _ => false,
            },
            CellId::Lac { lac } => match other {
                CellId::Lac { lac: lac2 } => *lac == *lac2,
                _ => false,
            },
            CellId::All => match other {
                CellId::All => true,
                _ => false,
            },
        }
    }
}

impl Eq for CellId {
    ghost laws = { decided id_eq id_decides };
}
