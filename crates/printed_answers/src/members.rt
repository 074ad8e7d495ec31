//! The compact text of a JSON object: members sorted by key, no blanks, and only required escapes in strings.
ghost use Rattle.std.specs.Prelude.{◌≡◌, IfOk, IsTrue, Some};
ghost use Rattle.std.specs.String.{string_bytes};
ghost use Rattle.json.specs.Json.{document, object};
ghost use Rattle.serde_json.specs.View.{view};
ghost use Rattle.printed_answers.specs.MembersBuilt.{value_built};
ghost use Rattle.printed_answers.specs.JsonExamples.{AreWritten};
ghost use Rattle.printed_answers.specs.JsonText.{ascend, object_text};
ghost use Rattle.printed_answers.specs.Members.{keys_of, members_of, members_read, value_of};

use serde_json::Map;
use std::alloc::{AllocError, Global};

/// The value of a member.
#[derive(Clone, Copy)]
pub(crate) enum MemberValue<'a> {
    /// A number.
    Number(u64),
    /// A string.
    Text(&'a str),
    /// An array of strings.
    Texts(&'a [String]),
}

/// A member of an object.
#[derive(Clone, Copy)]
pub(crate) struct Member<'a> {
    /// Its key.
    pub(crate) key: &'a str,
    /// Its value.
    pub(crate) value: MemberValue<'a>,
}

impl<'a> Member<'a> {
    /// A member with a number.
    pub(crate) fn number(key: &'a str, number: u64) -> Member<'a>
        ensures { result ≡ record { key = key.entry; value = MemberValue.Number number } }
    {
        Member {
            key,
            value: MemberValue::Number(number),
        }
    }

    /// A member with a string.
    pub(crate) fn text(key: &'a str, text: &'a str) -> Member<'a>
        ensures { result ≡ record { key = key.entry; value = MemberValue.Text text.entry } }
    {
        Member {
            key,
            value: MemberValue::Text(text),
        }
    }

    /// A member with an array of strings.
    pub(crate) fn texts(key: &'a str, texts: &'a [String]) -> Member<'a>
        ensures { result ≡ record { key = key.entry; value = MemberValue.Texts texts.entry } }
    {
        Member {
            key,
            value: MemberValue::Texts(texts),
        }
    }
}

/// The compact text of the object with these members, whose keys ascend bytewise.
///
/// ```
/// let members = [Member::number("cost", 6), Member::text("result", "optimal")];
/// object_text(alloc, &members)? // {"cost":6,"result":"optimal"}
/// ```
pub(crate) fn object_text(alloc: Global, members: &[Member<'_>]) -> Result<String, AllocError>
    requires { IsTrue (ascend (keys_of members.now)) }
    ensures text { IfOk result (λ text. string_bytes text ≡ object_text (members_of members.now)) }

    // A JSON parser reads back these members.
    ensures read { IfOk result (λ text. document (string_bytes text) ≡ Some (object (members_read (members_of members.now)))) }
{
    let mut object = Map::new(alloc);
    'members: for member in members {
        let key = String::from_str(alloc, member.key)?;
        let value = built_value(alloc, member.value)?;
        object.insert(key, value)?;
    }
    serde_json::Value::Object(object).to_string(alloc)
}

/// The worked examples of texts, proved. The function does nothing.
pub fn json_examples_are_written()
    ensures { AreWritten }
{}

/// A member's value as a JSON value.
fn built_value(alloc: Global, value: MemberValue<'_>) -> Result<serde_json::Value, AllocError>
    ensures { IfOk result (λ built. view built ≡ value_built (value_of value.entry)) }
{
    match value {
        MemberValue::Number(number) => Ok(serde_json::Value::from(number)),
        MemberValue::Text(text) => serde_json::Value::try_from_str(alloc, text),
        MemberValue::Texts(texts) => built_texts(alloc, texts),
    }
}

/// An array of strings as a JSON value.
fn built_texts(alloc: Global, texts: &[String]) -> Result<serde_json::Value, AllocError>
    ensures { IfOk result (λ built. view built ≡ value_built (value_of (MemberValue.Texts texts.entry))) }
{
    let mut array = Vec::with_capacity(alloc, texts.len())?;
    'texts: for text in texts {
        array.push(serde_json::Value::try_from_str(alloc, text.as_str())?)?;
    }
    Ok(serde_json::Value::Array(array))
}
