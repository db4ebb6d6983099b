//! The table of lines.
ghost use Rattle.std.specs.Prelude.{◌≡◌, ◌<◌, false, codes, Some, None, option_map, IfSome};
ghost use Rattle.script_text.specs.Table.{row, from_to, has_verb, line_fits, line_of};
ghost use Rattle.script_text.specs.Parts.{key_of};
ghost use Rattle.script_text.specs.Text.{words};

use crate::text::{word_at, word_count};
use tk_base::{
    BUTTON_LIMIT, BYTE_TICKS_LIMIT, LED_LIMIT, RAM_LEAST, RAM_LIMIT, RAM_UNIT, SLICE_LIMIT,
    STORAGE_LIMIT, Verb, WINDOW_LIMIT,
};

/// A line of the table.
#[derive(Clone, Copy, Debug, PartialEq, Eq)]
pub enum Line {
    /// `ram N`: the bytes of RAM.
    Ram,
    /// `leds N`: the number of LEDs.
    Leds,
    /// `buttons N`: the number of buttons.
    Buttons,
    /// `slice N`: how many turns a process has before the next one.
    Slice,
    /// `partition N`: how many ticks the window of each slot has.
    Partition,
    /// `start N`: where the alarm's clock starts.
    Start,
    /// `uart N`: the ticks that the serial line takes for a byte.
    Uart,
    /// `storage N`: the bytes of storage of each slot.
    Storage,
    /// `policy stop`: a process that faults has ended.
    Stop,
    /// `policy restart`: it begins again.
    Restart,
    /// `policy threshold N`: it begins again where it had fewer restarts than that.
    Threshold,
    /// `filter open`: an object without the Permissions element may make every call.
    FilterOpen,
    /// `filter strict`: it may give no command, subscribe or allow.
    FilterStrict,
    /// `storage-fault K`: the K-th storage request fails.
    StorageFault,
    /// `random W ..`: words that the source of random words gives.
    Random,
    /// `at T input H`: bytes that the serial line gets, and when.
    Input,
    /// `at T press B`: a button is pressed then.
    Press,
    /// `at T release B`: it is released.
    Release,
    /// `at T do VERB NAME`: an operator acts on the process of a name.
    Act,
}

/// The lines of the table, in its order.
const TABLE: [Line; 19] = [
    Line::Ram,
    Line::Leds,
    Line::Buttons,
    Line::Slice,
    Line::Partition,
    Line::Start,
    Line::Uart,
    Line::Storage,
    Line::Stop,
    Line::Restart,
    Line::Threshold,
    Line::FilterOpen,
    Line::FilterStrict,
    Line::StorageFault,
    Line::Random,
    Line::Input,
    Line::Press,
    Line::Release,
    Line::Act,
];

/// Which numbers may stand in a line.
#[derive(Clone, Copy)]
pub struct Range {
    pub least: u64,
    pub most: u64,
    pub multiple: u64,
}

/// The word that tells a line from others of its name, and its place. Places count from 0.
#[derive(Clone, Copy)]
pub struct Key {
    pub place: usize,
    pub word: &'static [u8],
}

/// The place of a line's number, and which it may be.
#[derive(Clone, Copy)]
pub struct NumberAt {
    pub place: usize,
    pub range: Range,
}

/// The place from which on a line's words are hex, and how many digits each has where that is fixed.
#[derive(Clone, Copy)]
pub struct HexFrom {
    pub place: usize,
    pub digits: Option<usize>,
}

/// What the words of a line are.
#[derive(Clone, Copy)]
pub struct Form {
    /// How many there are, the name among them.
    pub words: usize,
    /// Whether more may follow.
    pub more: bool,
    pub number: Option<NumberAt>,
    /// The place of the number of a button, which has to be there.
    pub button: Option<usize>,
    /// The place of a process's name.
    pub name: Option<usize>,
    pub hex: Option<HexFrom>,
}

/// A row of the table.
#[derive(Clone, Copy)]
pub struct Row {
    /// The first word.
    pub name: &'static [u8],
    pub key: Option<Key>,
    /// The place of a verb.
    pub verb: Option<usize>,
    pub form: Form,
    /// The number that holds where no line gives it.
    pub default: u32,
}

/// Numbers from one to another, both among them.
const fn from_to(least: u64, most: u64) -> Range
    ensures { result ≡ record { least = least; most = most; multiple = 1 } }
{
    Range {
        least,
        most,
        multiple: 1,
    }
}

/// The form of two words, the second one a number.
const fn name_and_number(range: Range) -> Form
    ensures { result ≡ record {
      words = 2;
      more = false;
      number = Some (record { place = 1; range = range });
      button = None;
      name = None;
      hex = None;
    } }
{
    Form {
        words: 2,
        more: false,
        number: Some(NumberAt { place: 1, range }),
        button: None,
        name: None,
        hex: None,
    }
}

/// A line of a name and a number.
const fn numbered(name: &'static [u8], range: Range, default: u32) -> Row
    ensures name { result.name.now ≡ name.now }
    ensures key { option_map key_of result.key ≡ None }
    ensures verb { result.verb ≡ None }
    ensures form { result.form ≡ record {
      words = 2;
      more = false;
      number = Some (record { place = 1; range = range });
      button = None;
      name = None;
      hex = None;
    } }
    ensures default { result.default ≡ default }
{
    Row {
        name,
        key: None,
        verb: None,
        form: name_and_number(range),
        default,
    }
}

/// A line whose second word tells it from others of its name.
const fn chosen(
    name: &'static [u8],
    word: &'static [u8],
    words: usize,
    number: Option<NumberAt>,
) -> Row
    ensures name { result.name.now ≡ name.now }
    ensures key { option_map key_of result.key ≡ Some (record { place = 1; word = word.now }) }
    ensures verb { result.verb ≡ None }
    ensures form { result.form ≡ record {
      words = words;
      more = false;
      number = number;
      button = None;
      name = None;
      hex = None;
    } }
    ensures default { result.default ≡ 0 }
{
    Row {
        name,
        key: Some(Key { place: 1, word }),
        verb: None,
        form: Form {
            words,
            more: false,
            number,
            button: None,
            name: None,
            hex: None,
        },
        default: 0,
    }
}

/// A line of what comes at a time, which is told by its third word. Its fourth one is hex, or the
/// number of a button.
const fn timed(word: &'static [u8], button: Option<usize>, hex: Option<HexFrom>) -> Row
    ensures name { result.name.now ≡ codes "at" }
    ensures key { option_map key_of result.key ≡ Some (record { place = 2; word = word.now }) }
    ensures verb { result.verb ≡ None }
    ensures form { result.form ≡ record {
      words = 4;
      more = false;
      number = Some (record { place = 1; range = from_to 0 4294967295 });
      button = button;
      name = None;
      hex = hex;
    } }
    ensures default { result.default ≡ 0 }
{
    Row {
        name: b"at",
        key: Some(Key { place: 2, word }),
        verb: None,
        form: Form {
            words: 4,
            more: false,
            number: Some(NumberAt {
                place: 1,
                range: from_to(0, 4_294_967_295),
            }),
            button,
            name: None,
            hex,
        },
        default: 0,
    }
}

/// Whether a verb stands in the place of one, where any word does.
fn has_verb(text: &[u8], place: Option<usize>) -> bool
    ensures { result ≡ has_verb (words text.now) place }
{
    match place {
        None => true,
        Some(place) => word_count(text) <= place || Verb::of(word_at(text, place)).is_some(),
    }
}

impl Line {
    /// Its row of the table.
    pub fn row(self) -> Row
        ensures name { result.name.now ≡ (row self).name }
        ensures key { option_map key_of result.key ≡ (row self).key }
        ensures verb { result.verb ≡ (row self).verb }
        ensures form { result.form ≡ (row self).form }
        ensures default { result.default ≡ (row self).default }
        ensures some { IfSome result.form.number (λ n. 0 < n.range.multiple) }
    {
        match self {
            Line::Ram => numbered(
                b"ram",
                Range {
                    least: RAM_LEAST as u64,
                    most: RAM_LIMIT as u64,
                    multiple: RAM_UNIT as u64,
                },
                65536,
            ),
            Line::Leds => numbered(b"leds", from_to(0, LED_LIMIT as u64), 4),
            Line::Buttons => numbered(b"buttons", from_to(0, BUTTON_LIMIT as u64), 0),
            Line::Slice => numbered(b"slice", from_to(1, SLICE_LIMIT as u64), 100),
            Line::Partition => numbered(b"partition", from_to(1, WINDOW_LIMIT as u64), 0),
            Line::Start => numbered(b"start", from_to(0, 4_294_967_295), 0),
            Line::Uart => numbered(b"uart", from_to(0, BYTE_TICKS_LIMIT as u64), 1),
            Line::Storage => numbered(b"storage", from_to(0, STORAGE_LIMIT as u64), 512),
            Line::Stop => chosen(b"policy", b"stop", 2, None),
            Line::Restart => chosen(b"policy", b"restart", 2, None),
            Line::Threshold => chosen(
                b"policy",
                b"threshold",
                3,
                Some(NumberAt {
                    place: 2,
                    range: from_to(0, 4_294_967_295),
                }),
            ),
            Line::FilterOpen => chosen(b"filter", b"open", 2, None),
            Line::FilterStrict => chosen(b"filter", b"strict", 2, None),
            Line::StorageFault => numbered(b"storage-fault", from_to(1, 4_294_967_295), 0),
            Line::Random => Row {
                name: b"random",
                key: None,
                verb: None,
                form: Form {
                    words: 2,
                    more: true,
                    number: None,
                    button: None,
                    name: None,
                    hex: Some(HexFrom {
                        place: 1,
                        digits: Some(8),
                    }),
                },
                default: 0,
            },
            Line::Input => timed(
                b"input",
                None,
                Some(HexFrom {
                    place: 3,
                    digits: None,
                }),
            ),
            Line::Press => timed(b"press", Some(3), None),
            Line::Release => timed(b"release", Some(3), None),
            Line::Act => Row {
                name: b"at",
                key: Some(Key {
                    place: 2,
                    word: b"do",
                }),
                verb: Some(3),
                form: Form {
                    words: 5,
                    more: false,
                    number: Some(NumberAt {
                        place: 1,
                        range: from_to(0, 4_294_967_295),
                    }),
                    button: None,
                    name: Some(4),
                    hex: None,
                },
                default: 0,
            },
        }
    }

    /// Whether the first word of a text is its name, and the word that tells it from others of its name
    /// stands there too, where any word stands in that place, and so a verb where it has one.
    fn fits(self, text: &[u8]) -> bool
        ensures { result ≡ line_fits (words text.now) self }
    {
        let row = self.row();
        if !has_verb(text, row.verb) {
            return false;
        }
        if word_at(text, 0) != row.name {
            return false;
        }
        match row.key {
            None => true,
            Some(key) => word_count(text) <= key.place || word_at(text, key.place) == key.word,
        }
    }
}

/// The first line of the table that fits a text.
#[tactic(auto, unfolding(crate::specs::Table::line_of))]
pub fn line_in(text: &[u8]) -> Option<Line>
    ensures { result ≡ line_of (words text.now) }
{
    for line in TABLE {
        if line.fits(text) {
            return Some(line);
        }
    }
    None
}
