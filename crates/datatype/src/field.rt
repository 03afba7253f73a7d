// A field's name and a zone, handed back as parts of the text or of the name list.
ghost use Rattle.std.specs.Prelude.{◌≡◌};
ghost use Rattle.tokenizer.specs.Text.{same};
ghost use Rattle.datatype.specs.Tree.{part, name_of, zone_of};

// Where a field's name stands: its home, its start and its length there. The home is a number and no enum, as word 6 of a
// row is, which C lends and may hold any.
#[derive(Clone, Copy, PartialEq, Eq)]
pub struct Field {
    pub home: u32,
    pub start: u32,
    pub size: u32,
}

impl Field {
    // A name's home: the text, or the name list.
    pub const IN_TEXT: u32 = 1;

    pub const IN_NAME_LIST: u32 = 2;

    // The default names, and the part of the name list that each of them is.
    pub const LIST_FIELD_DEFAULT_NAME: [u8; 4] = *b"item";

    pub const LIST_FIELD_START: u32 = 0;

    pub const LIST_FIELD_LENGTH: u32 = 4;

    pub const REE_RUN_ENDS_FIELD_DEFAULT_NAME: [u8; 8] = *b"run_ends";

    pub const REE_RUN_ENDS_START: u32 = 4;

    pub const REE_RUN_ENDS_LENGTH: u32 = 8;

    pub const REE_VALUES_FIELD_DEFAULT_NAME: [u8; 6] = *b"values";

    pub const REE_VALUES_START: u32 = 12;

    pub const REE_VALUES_LENGTH: u32 = 6;

    // The default names, as fields have them in the name list.
    pub const LIST_FIELD: Self = Field {
        home: Self::IN_NAME_LIST,
        start: Self::LIST_FIELD_START,
        size: Self::LIST_FIELD_LENGTH,
    };

    pub const REE_RUN_ENDS_FIELD: Self = Field {
        home: Self::IN_NAME_LIST,
        start: Self::REE_RUN_ENDS_START,
        size: Self::REE_RUN_ENDS_LENGTH,
    };

    pub const REE_VALUES_FIELD: Self = Field {
        home: Self::IN_NAME_LIST,
        start: Self::REE_VALUES_START,
        size: Self::REE_VALUES_LENGTH,
    };

    // The name list: the three default names, end to end.
    pub const NAME_LIST: [u8; 18] = *b"itemrun_endsvalues";

    // The field's name, from whichever of text and name list is its home: empty where its words do not fit.
    #[tactic(auto, unfolding(crate::specs::Tree::name_of))]
    pub fn name<'a>(self, text: &'a [u8], names: &'a [u8]) -> &'a [u8]
        ensures { result.now ≡ name_of text.now names.now self.home self.start self.size }
    {
        match self.home {
            Self::IN_TEXT => part_of(text, self.start, self.size),
            Self::IN_NAME_LIST => part_of(names, self.start, self.size),
            _ => &[],
        }
    }
}

// A part of a list, empty where it runs past the end.
fn part_of(s: &[u8], start: u32, size: u32) -> &[u8]
    ensures { result.now ≡ part s.now start size }
{
    let from = start as usize;
    s.get(from..from + size as usize).unwrap_or(&[])
}

// A zone, as a part of the text: empty where its words do not fit.
#[tactic(auto, unfolding(crate::specs::Tree::zone_of))]
pub fn zone(text: &[u8], start: u32, size: u32) -> &[u8]
    ensures { result.now ≡ zone_of text.now start size }
{
    part_of(text, start, size)
}

// Whether two byte slices are the same: `==`, said by the contracts' word, which is `same`, of numbers.
#[tactic(auto, using(crate::proofs::Same::pointwise_same))]
pub fn equal_bytes(a: &[u8], b: &[u8]) -> bool
    ensures { result ≡ same a.now b.now }
{
    a == b
}
