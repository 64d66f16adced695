//! The fields of a row: which words of a line they take.
ghost use Rattle.std.specs.Prelude.{◌≡◌, ◌<◌, ◌∷◌, [], MatchOption, get_or, length, map};
ghost use Rattle.std.specs.Prelude.{option_map};
ghost use Rattle.std.specs.List.{after_first, before_first};
ghost use Rattle.lsp_json.specs.Fields as spec;
ghost use Rattle.lsp_json.specs.Fields.{field_view, fields_left, fields_of, is_equals_sign};
ghost use Rattle.lsp_json.specs.Fields.{word_view};

use crate::words::first_word;

/// What the words of a line are, at a place of a row. A row writes it as a word of its pattern.
#[derive(Clone, Copy)]
pub(crate) enum Field<'p> {
    /// `word`: this word, which is left out.
    Literal(&'p str),
    /// `key=word`: this word, under this key.
    Labelled { key: &'p str, word: &'p str },
    /// `key=*`: a word, under this key.
    One(&'p str),
    /// `key=..`: the words up to `and` or `event`, or to the end, in an array under this key.
    Many(&'p str),
    /// `word=?`: this word or the end of the line: whether it is there, under a key of its name.
    Whether(&'p str),
    /// `@`: the word `event`, the number of an event, whose it is, and its number among theirs.
    Event,
}

/// Whether the fields of a pattern take all of these words.
pub(crate) fn fit(pattern: &str, words: &[&str]) -> bool
    ensures { result ≡ spec.fit (fields_of pattern.now) (map word_view words.now) }
{
    let (field, left) = first_field(pattern);
    let (own, behind) = field.split(words);
    if !field.suits(own) {
        return false;
    }
    let Some(left) = left else {
        return behind.is_empty();
    };
    fit(left, behind)
}

/// The first field of a pattern, and what is left of the pattern, if there is anything.
pub(crate) fn first_field(pattern: &str) -> (Field<'_>, Option<&str>)
    ensures fields { fields_of pattern.now
        ≡ field_view result.0 ∷ fields_left (option_map (λ left. left.now) result.1) }
    ensures less { MatchOption result.1 (Unit {0}) (λ left. length left.now < length pattern.now) }
{
    let (word, left) = first_word(pattern);
    (field_of(word), left)
}

/// The field that a word of a pattern stands for.
fn field_of(word: &str) -> Field<'_>
    ensures { field_view result ≡ spec.field_of word.now }
{
    let (key, shape) = key_and_shape(word);
    if shape.is_empty() {
        return literal_field(key);
    }
    labelled_field(key, shape)
}

/// What stands before the first equals sign, and what stands behind it.
fn key_and_shape(word: &str) -> (&str, &str)
    ensures key { result.0.now ≡ before_first is_equals_sign word.now }
    ensures shape { result.1.now ≡ after_first is_equals_sign word.now }
{
    match word.split_once('=') {
        Some((key, shape)) => (key, shape),
        None => (word, ""),
    }
}

fn literal_field(word: &str) -> Field<'_>
    ensures { field_view result ≡ spec.literal_field word.now }
{
    if word == "@" {
        return Field::Event;
    }
    Field::Literal(word)
}

fn labelled_field<'p>(key: &'p str, shape: &'p str) -> Field<'p>
    ensures { field_view result ≡ spec.labelled_field key.now shape.now }
{
    if shape == "*" {
        return Field::One(key);
    }
    if shape == ".." {
        return Field::Many(key);
    }
    if shape == "?" {
        return Field::Whether(key);
    }
    Field::Labelled { key, word: shape }
}

impl Field<'_> {
    /// The words that the field takes, and those behind them.
    pub(crate) fn split<'w, 'a>(self, words: &'w [&'a str]) -> (&'w [&'a str], &'w [&'a str])
        ensures own { map word_view result.0.now
            ≡ spec.own (field_view self.entry) (map word_view words.now) }
        ensures behind { map word_view result.1.now
            ≡ spec.behind (field_view self.entry) (map word_view words.now) }
    {
        words.split_at(self.size(words).min(words.len()))
    }

    /// How many words the field takes, where so many are left.
    fn size(self, words: &[&str]) -> usize
        ensures { result ≡ spec.size (field_view self.entry) (map word_view words.now) }
    {
        match self {
            Field::Many(_) => items_before(words),
            Field::Event => 4,
            _ => 1,
        }
    }

    /// Whether the words that the field takes are as they must be.
    fn suits(self, own: &[&str]) -> bool
        ensures { result ≡ spec.suits (field_view self.entry) (map word_view own.now) }
    {
        match self {
            Field::Literal(word) => word_at(own, 0) == word,
            Field::Labelled { word, .. } => word_at(own, 0) == word,
            Field::One(_) => !own.is_empty(),
            Field::Many(_) => true,
            Field::Whether(word) => own.is_empty() || word_at(own, 0) == word,
            Field::Event => own.len() == 4 && word_at(own, 0) == "event",
        }
    }
}

/// How many words there are before `and` or `event`.
fn items_before(words: &[&str]) -> usize
    ensures { result ≡ spec.items_before (map word_view words.now) }
{
    for (index, word) in words.iter().enumerate() {
        if *word == "and" || *word == "event" {
            return index;
        }
    }
    words.len()
}

/// The word at this place, or none.
pub(crate) fn word_at<'a>(words: &[&'a str], place: usize) -> &'a str
    ensures { result.now ≡ get_or (map word_view words.now) place [] }
{
    match words.get(place) {
        Some(word) => word,
        None => "",
    }
}
