// The lines of an answer, each as a step on what was read.
ghost use Rattle.std.specs.Prelude.{◌≡◌, true, [], map, vec_items};
ghost use Rattle.std.specs.Option.{option_map};
ghost use Rattle.compactions.specs.Meanings.{view_of};
ghost use Rattle.marking.specs.declared.answer.Part.TheVariants as parts;
ghost use Rattle.problems.specs.Lines.{sufficed};
ghost use Rattle.problems.specs.Outcomes.{read_as, or_else};
ghost use Rattle.problems.specs.declared.error.Problem.TheVariants as problems;
ghost use Rattle.paper.specs.Answers.{said_of, answer_of, place};
ghost use Rattle.paper.specs.AnswerLines.{choice, views_in, runs_in, part_named, part_by, part_in, has_kind, part_added, answer_line, with_line};

use compactions::db_state::SsTableView;
use marking::answer::{Answer, Claim, Part};
use paper_text::numbers::{i64_in, u32_in, u64_in, view_in};
use paper_text::words::Words;
use problems::error::Problem;
use problems::expected::InAnswer;
use std::alloc::Global;

// The heap goes with the words of a line that may need it: words belong to a text that needs none.
// The line `answer`, once.
pub(crate) fn read_answer(
    heap: Global,
    answer: Option<Answer>,
    words: Words<'_>,
) -> Result<Answer, Problem>
    ensures { read_as answer_of result ≡ answer_line words.entry (option_map answer_of answer) }
{
    if answer.is_some() {
        return Err(InAnswer::OneAnswer.into());
    }
    match words.only() {
        Some(b"passes") => Ok(Answer::Passes(Vec::new(heap))),
        Some(b"refused") => Ok(Answer::Refused),
        _ => Err(InAnswer::Verdict.into()),
    }
}

// A line `with`, after `answer passes`.
pub(crate) fn read_with(
    heap: Global,
    answer: Option<Answer>,
    words: Words<'_>,
) -> Result<Answer, Problem>
    ensures { sufficed result ≡ true → read_as answer_of result ≡ with_line words.entry (option_map answer_of answer) }
{
    let Some(Answer::Passes(claims)) = answer else {
        return Err(InAnswer::PassesFirst.into());
    };
    let claim = claim_in(heap, words)?;
    Ok(Answer::Passes(add_claim(claims, claim)?))
}

// A claim more, unless there is one of its kind.
fn add_claim(mut claims: Vec<Claim>, claim: Claim) -> Result<Vec<Claim>, Problem>
    ensures { sufficed result ≡ true → read_as (λ v. map said_of v.items) result ≡ part_added (map said_of claims.items) (said_of claim) }
{
    if has_part(claims.as_slice(), claim.part()) {
        return Err(InAnswer::OnePart.into());
    }
    claims.push(claim)?;
    Ok(claims)
}

fn has_part(claims: &[Claim], part: Part) -> bool
    ensures { result ≡ has_kind (place part) (map said_of claims.now) }
{
    claims.iter().any(|claim| claim.part() == part)
}

fn claim_in(heap: Global, mut words: Words<'_>) -> Result<Claim, Problem>
    ensures { sufficed result ≡ true → read_as said_of result ≡ part_in words.entry }
{
    let part = words.next().and_then(part_named).ok_or(InAnswer::Part)?;
    claim_on(heap, part, words)
}

fn part_named(word: &[u8]) -> Option<Part>
    ensures { result ≡ part_named word.now }
{
    match word {
        b"destination" => Some(Part::Destination),
        b"views" => Some(Part::Views),
        b"runs" => Some(Part::Runs),
        b"tick" => Some(Part::Tick),
        b"last-run" => Some(Part::LastRun),
        b"retention" => Some(Part::Retention),
        b"context" => Some(Part::Context),
        _ => None,
    }
}

// What the words behind it say of a part. Only a part that is a list needs memory.
fn claim_on(heap: Global, part: Part, words: Words<'_>) -> Result<Claim, Problem>
    ensures value { sufficed result ≡ true → read_as said_of result ≡ part_by words.entry part }
    ensures no_list { (part ≡ parts.Views → ⊥) → (part ≡ parts.Runs → ⊥) → read_as said_of result ≡ part_by words.entry part }
{
    match part {
        Part::Destination => claimed(
            words.only().and_then(u32_in).map(Claim::Destination),
            InAnswer::Destination,
        ),
        Part::Views => Ok(Claim::Views(views_in(heap, words)?)),
        Part::Runs => Ok(Claim::Runs(runs_in(heap, words)?)),
        Part::Tick => claimed(
            words.only().and_then(i64_in).map(Claim::Tick),
            InAnswer::Tick,
        ),
        Part::LastRun => claimed(
            words
                .only()
                .and_then(|word| choice_in(word, b"set", b"unset"))
                .map(Claim::LastRun),
            InAnswer::LastRun,
        ),
        Part::Retention => claimed(
            words.only().and_then(u64_in).map(Claim::Retention),
            InAnswer::Retention,
        ),
        Part::Context => claimed(
            words
                .only()
                .and_then(|word| choice_in(word, b"present", b"absent"))
                .map(Claim::Context),
            InAnswer::Context,
        ),
    }
}

// This and the next are two loops: one for both would take how a word is read, what that means and
// the problem, and its contract would be longer than both.
fn views_in(heap: Global, words: Words<'_>) -> Result<Vec<SsTableView>, Problem>
    ensures { sufficed result ≡ true → read_as (λ v. map view_of v.items) result ≡ views_in words.entry [] }
{
    let mut views = Vec::new(heap);
    for word in words {
        views.push(view_in(word).ok_or(InAnswer::View)?)?;
    }
    Ok(views)
}

fn runs_in(heap: Global, words: Words<'_>) -> Result<Vec<u32>, Problem>
    ensures { sufficed result ≡ true → read_as vec_items result ≡ runs_in words.entry [] }
{
    let mut ids = Vec::new(heap);
    for word in words {
        ids.push(u32_in(word).ok_or(InAnswer::Run)?)?;
    }
    Ok(ids)
}

fn claimed(claim: Option<Claim>, expected: InAnswer) -> Result<Claim, Problem>
    ensures { read_as said_of result ≡ or_else (option_map said_of claim) (problems.Answer expected) }
{
    Ok(claim.ok_or(expected)?)
}

// One of two words: true for the first. By ==, since the words are parameters and no patterns.
fn choice_in(word: &[u8], one: &[u8], other: &[u8]) -> Option<bool>
    ensures { result ≡ choice one.now other.now word.now }
{
    if word == one {
        Some(true)
    } else if word == other {
        Some(false)
    } else {
        None
    }
}
