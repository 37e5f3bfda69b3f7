//! The tags and the attributes that a page has, each at the end of a text.
ghost use Rattle.std.specs.Prelude.{◌≡◌, ◌++◌, OnOk};
ghost use Rattle.k_page.specs.Markup as spec;

use itoa::Integer;
use k_num::NoMemory;
use k_text::{push, push_named, push_number};

/// A tag.
#[derive(Clone, Copy, Debug, PartialEq, Eq)]
pub enum Tag {
    Title,
    Heading,
    Chapter,
    Paragraph,
    Table,
    Caption,
    Row,
    HeadCell,
    Cell,
    Link,
    Code,
    Meter,
    Strong,
    Picture,
    Description,
    Shape,
    Label,
}

/// An attribute.
#[derive(Clone, Copy, Debug, PartialEq, Eq)]
pub enum Attribute {
    Class,
    Scope,
    Target,
    Name,
    Role,
    Left,
    Top,
    Width,
    Height,
    View,
    Most,
    Amount,
    LabelledBy,
}

/// The name of a tag.
#[tactic(auto, unfolding(crate::specs::Markup::tag_name))]
fn tag_name(tag: Tag) -> &'static str
    ensures { result.now ≡ spec.tag_name tag }
{
    match tag {
        Tag::Title => "title",
        Tag::Heading => "h1",
        Tag::Chapter => "h2",
        Tag::Paragraph => "p",
        Tag::Table => "table",
        Tag::Caption => "caption",
        Tag::Row => "tr",
        Tag::HeadCell => "th",
        Tag::Cell => "td",
        Tag::Link => "a",
        Tag::Code => "code",
        Tag::Meter => "meter",
        Tag::Strong => "strong",
        Tag::Picture => "svg",
        Tag::Description => "desc",
        Tag::Shape => "rect",
        Tag::Label => "text",
    }
}

/// The name of an attribute.
#[tactic(auto, unfolding(crate::specs::Markup::attribute_name))]
fn attribute_name(attribute: Attribute) -> &'static str
    ensures { result.now ≡ spec.attribute_name attribute }
{
    match attribute {
        Attribute::Class => "class",
        Attribute::Scope => "scope",
        Attribute::Target => "href",
        Attribute::Name => "id",
        Attribute::Role => "role",
        Attribute::Left => "x",
        Attribute::Top => "y",
        Attribute::Width => "width",
        Attribute::Height => "height",
        Attribute::View => "viewBox",
        Attribute::Most => "max",
        Attribute::Amount => "value",
        Attribute::LabelledBy => "aria-labelledby",
    }
}

/// The front of a tag, up to its attributes.
#[tactic(auto, unfolding(crate::specs::Markup::begun))]
pub(crate) fn begin(text: &mut Vec<u8>, tag: Tag) -> Result<(), NoMemory>
    ensures { OnOk result (text.new.items ≡ text.old.items ++ spec.begun tag) }
{
    push(text, "<")?;
    push(text, tag_name(tag))
}

/// The end of a tag, behind its attributes.
#[tactic(auto, unfolding(crate::specs::Markup::behind_attributes))]
pub(crate) fn end_attributes(text: &mut Vec<u8>) -> Result<(), NoMemory>
    ensures { OnOk result (text.new.items ≡ text.old.items ++ spec.behind_attributes) }
{
    push(text, ">")
}

/// The tag that ends an element.
#[tactic(auto, unfolding(crate::specs::Markup::ended))]
pub(crate) fn finish(text: &mut Vec<u8>, tag: Tag) -> Result<(), NoMemory>
    ensures { OnOk result (text.new.items ≡ text.old.items ++ spec.ended tag) }
{
    push(text, "</")?;
    push(text, tag_name(tag))?;
    push(text, ">\n")
}

/// A tag without attributes.
#[tactic(auto, unfolding(crate::specs::Markup::started))]
pub(crate) fn start(text: &mut Vec<u8>, tag: Tag) -> Result<(), NoMemory>
    ensures { OnOk result (text.new.items ≡ text.old.items ++ spec.started tag) }
{
    begin(text, tag)?;
    end_attributes(text)
}

/// An attribute, up to its value.
#[tactic(auto, unfolding(crate::specs::Markup::before_value))]
fn begin_value(text: &mut Vec<u8>, attribute: Attribute) -> Result<(), NoMemory>
    ensures { OnOk result (text.new.items ≡ text.old.items ++ spec.before_value attribute) }
{
    push(text, " ")?;
    push(text, attribute_name(attribute))?;
    push(text, "=\"")
}

/// What ends a value.
#[tactic(auto, unfolding(crate::specs::Markup::behind_value))]
fn end_value(text: &mut Vec<u8>) -> Result<(), NoMemory>
    ensures { OnOk result (text.new.items ≡ text.old.items ++ spec.behind_value) }
{
    push(text, "\"")
}

/// An attribute whose value is a word.
#[tactic(auto, unfolding(crate::specs::Markup::valued))]
pub(crate) fn push_word(
    text: &mut Vec<u8>,
    attribute: Attribute,
    word: &str,
) -> Result<(), NoMemory>
    ensures { OnOk result (text.new.items ≡ text.old.items ++ spec.valued attribute word.now) }
{
    begin_value(text, attribute)?;
    push(text, word)?;
    end_value(text)
}

/// An attribute whose value is two words, one directly behind the other.
#[tactic(auto, unfolding(crate::specs::Markup::valued))]
pub(crate) fn push_words(
    text: &mut Vec<u8>,
    attribute: Attribute,
    word: &str,
    more: &str,
) -> Result<(), NoMemory>
    ensures { OnOk result (text.new.items ≡ text.old.items ++ spec.valued attribute (word.now ++ more.now)) }
{
    begin_value(text, attribute)?;
    push(text, word)?;
    push(text, more)?;
    end_value(text)
}

/// An attribute whose value is a number.
#[tactic(auto, unfolding(crate::specs::Markup::valued))]
pub(crate) fn push_amount<I: Integer>(
    text: &mut Vec<u8>,
    attribute: Attribute,
    number: I,
) -> Result<(), NoMemory>
    ensures { OnOk result (text.new.items ≡ text.old.items ++ spec.valued attribute (I.text number)) }
{
    begin_value(text, attribute)?;
    push_number(text, number)?;
    end_value(text)
}

/// An attribute whose value is a word and a number behind it.
#[tactic(auto, unfolding(crate::specs::Markup::valued))]
pub(crate) fn push_numbered<I: Integer>(
    text: &mut Vec<u8>,
    attribute: Attribute,
    word: &str,
    number: I,
) -> Result<(), NoMemory>
    ensures { OnOk result (text.new.items ≡ text.old.items ++ spec.valued attribute (word.now ++ I.text number)) }
{
    begin_value(text, attribute)?;
    push_named(text, word, number)?;
    end_value(text)
}

/// A tag with one attribute, whose value is a word.
#[tactic(auto, unfolding(crate::specs::Markup::started_with))]
pub(crate) fn start_with(
    text: &mut Vec<u8>,
    tag: Tag,
    attribute: Attribute,
    word: &str,
) -> Result<(), NoMemory>
    ensures { OnOk result (text.new.items ≡ text.old.items ++ spec.started_with tag attribute word.now) }
{
    begin(text, tag)?;
    push_word(text, attribute, word)?;
    end_attributes(text)
}

/// An element without attributes, whose text is this.
#[tactic(auto, unfolding(crate::specs::Markup::texted))]
pub(crate) fn push_element(text: &mut Vec<u8>, tag: Tag, inner: &str) -> Result<(), NoMemory>
    ensures { OnOk result (text.new.items ≡ text.old.items ++ spec.texted tag inner.now) }
{
    start(text, tag)?;
    push(text, inner)?;
    finish(text, tag)
}
