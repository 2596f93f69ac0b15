// The answer about a generated program.
ghost use Rattle.std.specs.Prelude.{◌≡◌, ◌≤◌, ◌<◌, ◌-◌, ◌++◌, [], ◌∷◌, IfOk, OnOk, codes, cond, decimal, map};
ghost use Rattle.std.specs.Prelude.{slice_get, string_bytes};
ghost use Rattle.um_tree.specs.ProgramTree.{program_tree, function_tree, scheme_tree};
ghost use Rattle.um_measures.specs.Known.{is_among};
ghost use Rattle.um_show.specs.SchemeText.{scheme_text as text_of_scheme};
ghost use Rattle.um_infer.specs.Answers.{scheme_trees};
ghost use Rattle.um_front.specs.Parts.{checked_tree};
ghost use Rattle.um_call_answers.specs.BigAnswer.{BigAnswer, IsBigAnswer, big_lines, different_schemes as different};
ghost use Rattle.um_call_answers.specs.BigAnswer.{scheme_line, last_call, last_name};
ghost use Rattle.um_call_answers.specs.CallAnswer.{IsCallAnswer};
ghost use Rattle.um_reports.specs.Steps.{IsReply, line};

use crate::call::answer_checked;
use crate::call_words::CallWords;
use crate::generated::big_text;
use crate::way::Way;
use std::alloc::{AllocError, Global};
use um_front::{Answer, Checked, Text, check};
use um_measures::NameTable;
use um_reports::Reply;
use um_show::scheme_text;
use um_tree::{Function, Name, Program, Scheme, Schemes};

/// The budget of the last function's call.
const BUDGET: u64 = 10_000_000;

/// The answer about the generated program of so many functions, 1 to 2,000: its schemes are counted and its last
/// function is called. Want of memory is the one error; each refusal is an answer. The rules are this project's own.
#[tactic(auto, unfolding(crate::specs::BigAnswer::BigAnswer))]
pub fn answer_big(alloc: Global, functions: u32) -> Answer
    requires some { 1 ≤ functions }
    requires few { functions ≤ 2000 }
    ensures { IfOk result (λ reply. BigAnswer functions reply.text.items reply.status) }
{
    let bytes = big_text(alloc, functions)?;
    let text = Text::of_bytes(alloc, &bytes);
    drop(bytes);
    match check(alloc, text?) {
        Ok(checked) => {
            let answer = answer_last(alloc, functions, &checked);
            checked.discard();
            answer
        }
        Err(refused) => refused,
    }
}

/// The answer about the generated program with its schemes.
#[tactic(auto, unfolding(crate::specs::BigAnswer::IsBigAnswer))]
fn answer_last(alloc: Global, functions: u32, checked: &Checked) -> Answer
    requires some { 1 ≤ functions }
    requires few { functions ≤ 2000 }
    ensures { IfOk result (λ reply. IsBigAnswer functions (checked_tree checked.now) reply.text.items reply.status) }
{
    let run = run_last(alloc, functions - 1, checked)?;
    if run.status.number() == 0 {
        reply_lines(alloc, functions, checked.program(), checked.schemes(), &run)
    } else {
        Ok(run)
    }
}

/// The run of function k on one metre and one second.
fn run_last(alloc: Global, k: u32, checked: &Checked) -> Answer
    requires few { k < 2000 }
    ensures { IfOk result (λ reply. IsCallAnswer Way.Code (last_call k) (checked_tree checked.now)
        reply.text.items reply.status) }
{
    let name = last_name_of(alloc, k)?;
    let texts = last_texts(alloc)?;
    let call = CallWords {
        budget: BUDGET,
        name: &name,
        texts: &texts,
    };
    answer_checked(alloc, Way::Code, &call, checked)
}

/// The name of function k.
fn last_name_of(alloc: Global, k: u32) -> Result<String, AllocError>
    ensures { IfOk result (λ name. string_bytes name ≡ last_name k) }
{
    let mut name = String::from_str(alloc, "g")?;
    name.push_str(itoa::Buffer::new().format(k))?;
    Ok(name)
}

/// The texts of one metre and one second.
fn last_texts(alloc: Global) -> Result<Vec<String>, AllocError>
    ensures { IfOk result (λ texts. map string_bytes texts.items ≡ codes "1<m>" ∷ codes "1<s>" ∷ []) }
{
    let mut texts = Vec::new(alloc);
    texts.push(String::from_str(alloc, "1<m>")?)?;
    texts.push(String::from_str(alloc, "1<s>")?)?;
    Ok(texts)
}

/// The four lines about the program, the last with the run of its last function.
fn reply_lines(
    alloc: Global,
    functions: u32,
    program: &Program,
    schemes: &Schemes,
    run: &Reply,
) -> Answer
    requires { 1 ≤ functions }
    ensures { IfOk result (λ reply. IsReply reply.text.items reply.status
        (big_lines functions (program_tree program.now) (scheme_trees schemes.now) run.now.text.items) run.now.status) }
{
    let mut text = Vec::new(alloc);
    push_count(&mut text, b"functions ", functions)?;
    push_count(
        &mut text,
        b"schemes ",
        different_schemes(alloc, program, schemes)?,
    )?;
    text.extend_from_slice(b"last ")?;
    push_scheme(alloc, &mut text, program, schemes, functions - 1)?;
    text.extend_from_slice(b"run ")?;
    text.extend_from_slice(&run.text)?;
    Ok(Reply {
        text,
        status: run.status,
    })
}

/// Adds the line of a count after its label.
fn push_count(text: &mut Vec<u8>, label: &[u8], count: u32) -> Result<(), AllocError>
    ensures { OnOk result (text.new.items ≡ text.old.items ++ line (label.now ++ decimal count)) }
{
    text.extend_from_slice(label)?;
    text.extend_from_slice(itoa::Buffer::new().format(count).as_bytes())?;
    text.extend_from_slice(b"\n")
}

/// How many different texts the schemes have, names left out.
fn different_schemes(alloc: Global, program: &Program, schemes: &Schemes) -> Result<u32, AllocError>
    ensures { IfOk result (λ n. n ≡ different (program_tree program.now) (scheme_trees schemes.now)) }
{
    let unnamed = Name::empty();
    let mut texts = NameTable::new(alloc);
    let schemes: &[Scheme] = &schemes.items;
    for scheme in schemes {
        match add_text(alloc, &mut texts, &unnamed, scheme, program) {
            Ok(()) => {}
            Err(stop) => {
                drop(texts);
                drop(unnamed);
                return Err(stop);
            }
        }
    }
    let count = texts.count();
    drop(texts);
    drop(unnamed);
    Ok(count)
}

/// Adds the text of the scheme under this name, if it isn't among the texts.
fn add_text(
    alloc: Global,
    texts: &mut NameTable,
    name: &Name,
    scheme: &Scheme,
    program: &Program,
) -> Result<(), AllocError>
    ensures { let t = text_of_scheme (program_tree program.now) name.now (scheme_tree scheme.now) in OnOk result
        (texts.new ≡ cond (is_among texts.old t) texts.old (texts.old ++ t ∷ [])) }
{
    let text = scheme_text(alloc, name, scheme, program)?;
    let added = texts.add(alloc, &text);
    drop(text);
    added
}

/// Adds the line of function k with its scheme.
fn push_scheme(
    alloc: Global,
    text: &mut Vec<u8>,
    program: &Program,
    schemes: &Schemes,
    k: u32,
) -> Result<(), AllocError>
    ensures { OnOk result (text.new.items ≡ text.old.items ++ scheme_line (program_tree program.now)
        (slice_get (program_tree program.now).functions k) (slice_get (scheme_trees schemes.now) k)) }
{
    let functions: &[Function] = &program.functions.items;
    let schemes: &[Scheme] = &schemes.items;
    let Some(function) = functions.get(k as usize) else {
        return Ok(());
    };
    let Some(scheme) = schemes.get(k as usize) else {
        return Ok(());
    };
    push_scheme_line(alloc, text, program, function, scheme)
}

/// Adds the line of a function with its scheme.
fn push_scheme_line(
    alloc: Global,
    text: &mut Vec<u8>,
    program: &Program,
    function: &Function,
    scheme: &Scheme,
) -> Result<(), AllocError>
    ensures { OnOk result (text.new.items ≡ text.old.items
        ++ line (text_of_scheme (program_tree program.now) (function_tree function.now).name
        (scheme_tree scheme.now))) }
{
    let one = scheme_text(alloc, &function.name, scheme, program)?;
    text.extend_from_slice(&one)?;
    text.extend_from_slice(b"\n")
}
