//! The line of a refusal.

ghost use Rattle.std.specs.Prelude.{◌≡◌, ◌++◌, ◌∷◌, [], IfOk, OnOk, codes, string_bytes};
ghost use Rattle.std.specs.Fmt.{decimal};
ghost use Rattle.lu_lines.specs.Line.{spaced};
ghost use Rattle.lu_load_lines.specs.Lines.{refusal_line, refused_line, plan_words, source_words, filter_words, pairing_words, schedule_words, kind_text};

use crate::{
    FilterRefusal, LoadRefusal, NameKind, PairingRefusal, PlanRefusal, ScheduleRefusal,
    SourceRefusal,
};
use lu_base::{Bytes8, Memory};
use std::alloc::Global;

/// The line that is written of a refusal, which ends with LF.
pub fn line_of(alloc: Global, refusal: &LoadRefusal) -> Result<Bytes8, Memory>
    ensures { IfOk result (λ line. line ≡ refusal_line refusal.now) }
{
    let line = text_of(alloc, refusal)?;
    Ok(Bytes8::new(line.into_bytes()))
}

fn text_of(alloc: Global, refusal: &LoadRefusal) -> Result<String, Memory>
    ensures { IfOk result (λ line. string_bytes line ≡ refusal_line refusal.now) }
{
    match refusal {
        LoadRefusal::Plan(why) => plan_line(alloc, *why),
        LoadRefusal::Source { file, why } => source_line(alloc, file.as_str(), *why),
        LoadRefusal::TooLong { file, function } => {
            line_of_three(alloc, file.as_str(), "long", function.as_str())
        }
        LoadRefusal::Filter { update, why } => filter_line(alloc, update.as_str(), *why),
        LoadRefusal::Pairing { update, why } => pairing_line(alloc, update.as_str(), why),
        LoadRefusal::Schedule(why) => schedule_line(alloc, *why),
    }
}

fn plan_line(alloc: Global, why: PlanRefusal) -> Result<String, Memory>
    ensures { IfOk result (λ line. string_bytes line ≡ refused_line (codes "plan" ∷ plan_words why)) }
{
    match why {
        PlanRefusal::Absent => line_of_two(alloc, "plan", "absent"),
        PlanRefusal::TooLarge => line_of_two(alloc, "plan", "size"),
        PlanRefusal::NotToml => line_of_two(alloc, "plan", "toml"),
        PlanRefusal::Field { key } => line_of_three(alloc, "plan", "field", key.as_str()),
        PlanRefusal::Limit { list } => line_of_three(alloc, "plan", "limit", list.as_str()),
    }
}

fn source_line(alloc: Global, file: &str, why: SourceRefusal) -> Result<String, Memory>
    ensures { IfOk result (λ line. string_bytes line ≡ refused_line (file.now ∷ source_words why)) }
{
    match why {
        SourceRefusal::Absent => line_of_two(alloc, file, "absent"),
        SourceRefusal::TooLarge => line_of_two(alloc, file, "size"),
        SourceRefusal::BadByte { line, col } => place_line(alloc, file, "byte", line, col),
        SourceRefusal::BadNumber { line, col } => { place_line(alloc, file, "number", line, col) }
        SourceRefusal::Syntax { decl } => number_line(alloc, file, "syntax", decl),
        SourceRefusal::TooDeep { decl } => number_line(alloc, file, "deep", decl),
        SourceRefusal::Rule { decl, code } => {
            place_line(alloc, file, "rule", decl, code as usize)
        }
    }
}

fn filter_line(alloc: Global, update: &str, why: FilterRefusal) -> Result<String, Memory>
    ensures { IfOk result (λ line. string_bytes line ≡ refused_line (codes "update" ∷ update.now ∷ codes "filter" ∷ filter_words why)) }
{
    let mut line = format!(in alloc; "refused update {update} filter")?;
    push_filter_words(&mut line, why)?;
    line.push_str("\n")?;
    Ok(line)
}

fn push_filter_words(line: &mut String, why: FilterRefusal) -> Result<(), Memory>
    ensures { OnOk result (string_bytes line.new ≡ string_bytes line.old ++ spaced (filter_words why)) }
{
    match why {
        FilterRefusal::BadByte { col } => push_number(line, "byte", col),
        FilterRefusal::BadNumber { col } => push_number(line, "number", col),
        FilterRefusal::Syntax => push_word(line, "syntax"),
        FilterRefusal::TooDeep => push_word(line, "deep"),
        FilterRefusal::Rule { code } => push_number(line, "rule", code as usize),
        FilterRefusal::NotInteger => push_word(line, "notint"),
    }
}

fn pairing_line(alloc: Global, update: &str, why: &PairingRefusal) -> Result<String, Memory>
    ensures { IfOk result (λ line. string_bytes line ≡ refused_line (codes "update" ∷ update.now ∷ pairing_words why.now)) }
{
    let mut line = format!(in alloc; "refused update {update}")?;
    push_pairing_words(&mut line, why)?;
    line.push_str("\n")?;
    Ok(line)
}

fn push_pairing_words(line: &mut String, why: &PairingRefusal) -> Result<(), Memory>
    ensures { OnOk result (string_bytes line.new ≡ string_bytes line.old ++ spaced (pairing_words why.now)) }
{
    match why {
        PairingRefusal::NoSuch { kind, name } => push_name(line, "nosuch", *kind, name.as_str()),
        PairingRefusal::Twice { kind, name } => push_name(line, "twice", *kind, name.as_str()),
    }
}

fn push_word(line: &mut String, word: &str) -> Result<(), Memory>
    ensures { OnOk result (string_bytes line.new ≡ string_bytes line.old ++ spaced (word.now ∷ [])) }
{
    write!(line, " {word}")?;
    Ok(())
}

fn push_number(line: &mut String, word: &str, number: usize) -> Result<(), Memory>
    ensures { OnOk result (string_bytes line.new ≡ string_bytes line.old ++ spaced (word.now ∷ decimal number ∷ [])) }
{
    write!(line, " {word} {number}")?;
    Ok(())
}

fn push_name(line: &mut String, why: &str, kind: NameKind, name: &str) -> Result<(), Memory>
    ensures { OnOk result (string_bytes line.new ≡ string_bytes line.old ++ spaced (why.now ∷ kind_text kind ∷ name.now ∷ [])) }
{
    let kind = kind_text(kind);
    write!(line, " {why} {kind} {name}")?;
    Ok(())
}

fn kind_text(kind: NameKind) -> &'static str
    ensures { result.now ≡ kind_text kind }
{
    match kind {
        NameKind::Global => "global",
        NameKind::Struct => "struct",
        NameKind::Field => "field",
        NameKind::Union => "union",
        NameKind::Member => "member",
        NameKind::Function => "function",
        NameKind::Site => "site",
        NameKind::Handler => "handler",
        NameKind::After => "after",
    }
}

fn schedule_line(alloc: Global, why: ScheduleRefusal) -> Result<String, Memory>
    ensures { IfOk result (λ line. string_bytes line ≡ refused_line (codes "schedule" ∷ schedule_words why)) }
{
    match why {
        ScheduleRefusal::Absent => line_of_two(alloc, "schedule", "absent"),
        ScheduleRefusal::TooLarge => line_of_two(alloc, "schedule", "size"),
        ScheduleRefusal::Line { number } => number_line(alloc, "schedule", "line", number),
        ScheduleRefusal::Limit => line_of_two(alloc, "schedule", "limit"),
    }
}

fn line_of_two(alloc: Global, what: &str, why: &str) -> Result<String, Memory>
    ensures { IfOk result (λ line. string_bytes line ≡ refused_line (what.now ∷ why.now ∷ [])) }
{
    Ok(format!(in alloc; "refused {what} {why}\n")?)
}

fn line_of_three(alloc: Global, what: &str, why: &str, name: &str) -> Result<String, Memory>
    ensures { IfOk result (λ line. string_bytes line ≡ refused_line (what.now ∷ why.now ∷ name.now ∷ [])) }
{
    Ok(format!(in alloc; "refused {what} {why} {name}\n")?)
}

fn number_line(alloc: Global, what: &str, why: &str, number: usize) -> Result<String, Memory>
    ensures { IfOk result (λ line. string_bytes line ≡ refused_line (what.now ∷ why.now ∷ decimal number ∷ [])) }
{
    Ok(format!(in alloc; "refused {what} {why} {number}\n")?)
}

fn place_line(
    alloc: Global,
    what: &str,
    why: &str,
    first: usize,
    second: usize,
) -> Result<String, Memory>
    ensures { IfOk result (λ line. string_bytes line ≡ refused_line (what.now ∷ why.now ∷ decimal first ∷ decimal second ∷ [])) }
{
    Ok(format!(in alloc; "refused {what} {why} {first} {second}\n")?)
}
