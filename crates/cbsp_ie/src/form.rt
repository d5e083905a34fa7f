//! The forms in which a cell is identified.

ghost use Rattle.std.specs.Prelude.{◌≡◌};
ghost use Rattle.cbsp_ie.specs.Form.{discriminator_of, form_with, size_of};

/// How cells are identified in a list (3GPP TS 48.049, 8.2.6): the discriminator's meaning.
#[derive(Clone, Copy, PartialEq, Eq, Debug)]
pub enum Form {
    /// PLMN, LAC and CI: one cell of any network.
    Global,
    /// LAC and CI: one cell of the centre's network.
    LacCi,
    /// CI alone.
    Ci,
    /// PLMN and LAC: a location area of any network.
    Lai,
    /// LAC alone: a location area of the centre's network.
    Lac,
    /// Every cell of the BSC.
    All,
}

impl Form {
    /// The form with this discriminator, 0 to 2 or 4 to 6, else `None`. The caller takes off the four
    /// spare bits.
    pub fn from_discriminator(value: u8) -> Option<Form>
        ensures { result ≡ form_with value }
    {
        match value {
            0 => Some(Form::Global),
            1 => Some(Form::LacCi),
            2 => Some(Form::Ci),
            4 => Some(Form::Lai),
            5 => Some(Form::Lac),
            6 => Some(Form::All),
            _ => None,
        }
    }

    /// The discriminator that announces the form.
    pub fn discriminator(self) -> u8
        ensures { result ≡ discriminator_of self }
    {
        match self {
            Form::Global => 0,
            Form::LacCi => 1,
            Form::Ci => 2,
            Form::Lai => 4,
            Form::Lac => 5,
            Form::All => 6,
        }
    }

    /// How many octets an identification of the form has.
    pub fn size(self) -> usize
        ensures { result ≡ size_of self }
    {
        match self {
            Form::Global => 7,
            Form::LacCi => 4,
            Form::Ci => 2,
            Form::Lai => 5,
            Form::Lac => 2,
            Form::All => 0,
        }
    }
}
