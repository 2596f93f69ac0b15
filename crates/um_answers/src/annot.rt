// The answer to `annot`: the schemes of a program's functions, each with the types of the nodes of its body.
ghost use Rattle.std.specs.Prelude.{◌≡◌, ◌<◌, ◌++◌, IfOk, OnOk, MatchResult, Some, length, map, slice_get};
ghost use Rattle.um_tree.specs.ProgramTree.{FunctionTree, SchemeTree, program_tree, function_tree};
ghost use Rattle.um_tree.specs.Formed.{IsFormed};
ghost use Rattle.um_infer.specs.Answers.{scheme_trees};
ghost use Rattle.um_infer.specs.Inference.{all_schemes, infer};
ghost use Rattle.um_infer.specs.SolvedPrograms.{AreSolvedFunctions, IsSolvedAt};
ghost use Rattle.um_rows.specs.NodeTypes.{typed_node};
ghost use Rattle.um_reports.specs.Cursors.{AreAt};
ghost use Rattle.um_reports.specs.Steps.{line};
ghost use Rattle.um_show.specs.SchemeText.{scheme_text as scheme_line};
ghost use Rattle.um_front.specs.Parts.{checked_tree};
ghost use Rattle.um_annot.specs.Annotated.{annotation};
ghost use Rattle.um_answers.specs.AnnotAnswer.{AnnotAnswer, IsAnnotReply, IsListingReply, listing, listed};
ghost use Rattle.um_answers.specs.AnnotAnswer.{node_line, node_lines};
ghost use Rattle.um_answers.specs.AnnotSteps.{AddsFunction, IsPast, StopsListing};

use std::alloc::{AllocError, Global};
use um_annot::{AnnotStop, annotated};
use um_front::{Answer, SolvedText, Text, check_solved, function_at};
use um_infer::SolvedFunction;
use um_reports::{LineHeads, Reply, Status, reply_to_range};
use um_rows::NodeType;
use um_shape::Shaped;
use um_show::{Variables, push_named_type, scheme_text};
use um_tree::{Program, Schemes};

/// A program with its schemes, and its text.
#[derive(Clone, Copy)]
struct Source<'a> {
    alloc: Global,
    bytes: &'a [u8],
    shaped: &'a Shaped,
    schemes: &'a Schemes,
}

/// Why there is no listing.
#[derive(Clone, Copy)]
enum ListStop {
    /// The type of a node of the function is out of range, at this place: it is the first such node.
    PowerRange { function: u32, at: u32 },
    /// No memory was left.
    NoMemory,
}

/// The answer to `annot` about a text: a line for each function, with its scheme, and after it a line for each node of
/// its body, in the order of the text, with its place and its type.
///
/// Want of memory is the one error; each refusal is an answer. After the refusals of `types` comes the first node whose
/// type has a power out of range, function by function. The types are the principal ones (Kennedy 1996).
#[tactic(auto, unfolding(crate::specs::AnnotAnswer::AnnotAnswer))]
pub fn answer_annot(alloc: Global, text: Text) -> Answer
    ensures { IfOk result (λ reply. AnnotAnswer text reply.text.items reply.status) }
{
    match check_solved(alloc, text) {
        Ok(solved) => reply_annotated(alloc, solved),
        Err(refused) => refused,
    }
}

/// The functions with their nodes.
fn reply_annotated(alloc: Global, text: SolvedText) -> Answer
    requires { AreSolvedFunctions (program_tree text.checked.text.shaped) (scheme_trees text.checked.schemes)
        (length (program_tree text.checked.text.shaped).functions) text.functions.items }
    ensures { IfOk result (λ reply. IsAnnotReply text.checked.text.text.bytes.items (checked_tree text.checked)
        reply.text.items reply.status) }
{
    let SolvedText {
        checked,
        mut functions,
    } = text;
    let source = Source {
        alloc,
        bytes: checked.bytes(),
        shaped: checked.shaped(),
        schemes: checked.schemes(),
    };
    let reply = reply_listing(&source, &mut functions);
    drop(functions);
    checked.discard();
    reply
}

fn reply_listing(source: &Source, functions: &mut Vec<SolvedFunction>) -> Answer
    requires inferred { infer (program_tree source.now.shaped.now) ≡ all_schemes (scheme_trees source.now.schemes.now) }
    requires solved { AreSolvedFunctions (program_tree source.now.shaped.now) (scheme_trees source.now.schemes.now)
        (length (program_tree source.now.shaped.now).functions) functions.old.items }
    ensures { IfOk result (λ reply. IsListingReply source.now.bytes.now
        (listing source.now.bytes.now (program_tree source.now.shaped.now) (scheme_trees source.now.schemes.now) 0
        (program_tree source.now.shaped.now).functions (scheme_trees source.now.schemes.now))
        reply.text.items reply.status) }
{
    let mut heads = LineHeads::new(source.alloc)?;
    match listing_text(source, functions, &mut heads) {
        Ok(text) => Ok(Reply {
            text,
            status: Status::Done,
        }),
        Err(ListStop::PowerRange { function, at }) => {
            let function = function_at(source.shaped.program(), function);
            reply_to_range(source.alloc, source.bytes, &function.name, at)
        }
        Err(ListStop::NoMemory) => Err(AllocError),
    }
}

/// The lines of all functions.
fn listing_text(
    source: &Source,
    functions: &mut Vec<SolvedFunction>,
    heads: &mut LineHeads,
) -> Result<Vec<u8>, ListStop>
    requires inferred { infer (program_tree source.now.shaped.now) ≡ all_schemes (scheme_trees source.now.schemes.now) }
    requires solved { AreSolvedFunctions (program_tree source.now.shaped.now) (scheme_trees source.now.schemes.now)
        (length (program_tree source.now.shaped.now).functions) functions.old.items }
    requires heads { AreAt source.now.bytes.now heads.old }
    ensures { MatchResult result
        (λ text. listing source.now.bytes.now (program_tree source.now.shaped.now)
        (scheme_trees source.now.schemes.now) 0 (program_tree source.now.shaped.now).functions
        (scheme_trees source.now.schemes.now) ≡ listed text.items)
        (StopsListing (program_tree source.now.shaped.now)
        (listing source.now.bytes.now (program_tree source.now.shaped.now) (scheme_trees source.now.schemes.now) 0
        (program_tree source.now.shaped.now).functions (scheme_trees source.now.schemes.now))) }
{
    let mut text = Vec::new(source.alloc);
    for i in 0..function_count(source.shaped) {
        match add_function(source, i, &mut functions[i as usize], heads, &mut text) {
            Ok(()) => {}
            Err(AnnotStop::PowerRange { at }) => {
                return Err(ListStop::PowerRange { function: i, at });
            }
            Err(AnnotStop::NoMemory) => return Err(ListStop::NoMemory),
        }
    }
    Ok(text)
}

/// How many functions the program has, which is formed.
fn function_count(shaped: &Shaped) -> u32
    ensures count { result ≡ length (program_tree shaped.now).functions }
    ensures formed { IsFormed (program_tree shaped.now) }
{
    shaped.program().functions.items.len() as u32
}

/// Adds the lines of function `i`.
fn add_function(
    source: &Source,
    i: u32,
    solved: &mut SolvedFunction,
    heads: &mut LineHeads,
    text: &mut Vec<u8>,
) -> Result<(), AnnotStop>
    requires function { i < length (program_tree source.now.shaped.now).functions }
    requires inferred { infer (program_tree source.now.shaped.now) ≡ all_schemes (scheme_trees source.now.schemes.now) }
    requires solved { IsSolvedAt (program_tree source.now.shaped.now) (scheme_trees source.now.schemes.now) i
        solved.old }
    requires heads { AreAt source.now.bytes.now heads.old }
    ensures heads { OnOk result (AreAt source.now.bytes.now heads.new) }
    ensures lines { (f : FunctionTree) (s : SchemeTree)
        → slice_get (program_tree source.now.shaped.now).functions i ≡ Some f
        → slice_get (scheme_trees source.now.schemes.now) i ≡ Some s → MatchResult result
        (λ _. AddsFunction source.now.bytes.now (program_tree source.now.shaped.now) f s
        (annotation (length (program_tree source.now.shaped.now).bases) (program_tree source.now.shaped.now).records
        (scheme_trees source.now.schemes.now) i f) text.old.items text.new.items)
        (IsPast (annotation (length (program_tree source.now.shaped.now).bases)
        (program_tree source.now.shaped.now).records (scheme_trees source.now.schemes.now) i f)) }
{
    let program = source.shaped.program();
    add_scheme(source, program, i, text)?;
    match annotated(source.alloc, source.shaped, i, solved) {
        Ok(()) => Ok(add_nodes(source, program, &solved.typed.nodes.items, heads, text)?),
        Err(stop) => Err(stop),
    }
}

/// Adds the line of the scheme of function `i`.
fn add_scheme(
    source: &Source,
    program: &Program,
    i: u32,
    text: &mut Vec<u8>,
) -> Result<(), AllocError>
    requires function { i < length (program_tree program.now).functions }
    requires scheme { i < length (scheme_trees source.now.schemes.now) }
    ensures { (f : FunctionTree) (s : SchemeTree) → slice_get (program_tree program.now).functions i ≡ Some f
        → slice_get (scheme_trees source.now.schemes.now) i ≡ Some s → OnOk result (text.new.items
        ≡ text.old.items ++ line (scheme_line (program_tree program.now) f.name s)) }
{
    let function = &program.functions.items[i as usize];
    let scheme = &source.schemes.items[i as usize];
    let one = scheme_text(source.alloc, &function.name, scheme, program)?;
    text.extend_from_slice(&one)?;
    text.push(b'\n')?;
    Ok(())
}

/// Adds the lines of the nodes.
fn add_nodes(
    source: &Source,
    program: &Program,
    nodes: &[NodeType],
    heads: &mut LineHeads,
    text: &mut Vec<u8>,
) -> Result<(), AllocError>
    requires { AreAt source.now.bytes.now heads.old }
    ensures heads { OnOk result (AreAt source.now.bytes.now heads.new) }
    ensures lines { OnOk result (text.new.items ≡ text.old.items
        ++ node_lines source.now.bytes.now (program_tree program.now) (map typed_node nodes.now)) }
{
    for node in nodes {
        add_node(source, program, node, heads, text)?;
    }
    Ok(())
}

fn add_node(
    source: &Source,
    program: &Program,
    node: &NodeType,
    heads: &mut LineHeads,
    text: &mut Vec<u8>,
) -> Result<(), AllocError>
    requires { AreAt source.now.bytes.now heads.old }
    ensures heads { OnOk result (AreAt source.now.bytes.now heads.new) }
    ensures line { OnOk result (text.new.items ≡ text.old.items
        ++ node_line source.now.bytes.now (program_tree program.now) (typed_node node.now)) }
{
    heads.push_next(text, source.bytes, node.at)?;
    text.push(b' ')?;
    push_named_type(source.alloc, text, program, Variables::Letters, &node.ty)?;
    text.push(b'\n')?;
    Ok(())
}
