// What the words ask for.
ghost use Rattle.std.specs.Prelude.{◌≡◌, ◌<◌, [], IsTrue, length, drop, get_or};
ghost use Rattle.std.specs.Char.{is_ascii_digit};
ghost use Rattle.std.specs.List.{list_all};
ghost use Rattle.std.specs.Str.Parse.{digits_value};
ghost use Rattle.um_orders.specs.Orders.{order_of as order_named, order_alone as alone, longer_order as longer};
ghost use Rattle.um_orders.specs.Orders.{longest_order as longest};
ghost use Rattle.um_sizes.specs.ScaleWords.{is_scales as are_sizes};
ghost use Rattle.um_orders.specs.Orders.{order_of_two as of_two, big_order as big_named, count_of as count_in};
ghost use Rattle.um_orders.specs.Orders.{order_of_three as of_three, order_of_many as of_many};
ghost use Rattle.um_orders.specs.Orders.{rescale_order as rescale_named, twin_order as twin_named};
ghost use Rattle.um_orders.specs.Orders.{call_order as call_named, budget_of as budget_in, are_few_digits};
ghost use Rattle.um_orders.specs.Orders.{calls_order as calls_named, show_order as show_named, digits_of as digits_in};
ghost use Rattle.um_orders.specs.Orders.{intake_of, calls};

use crate::Words;

/// The greatest budget of calls.
const GREATEST_BUDGET: u64 = 10_000_000;

/// The most digits after the point of a printed number.
const MOST_DIGITS: u64 = 18;

/// The most functions of a generated program.
const MOST_FUNCTIONS: u64 = 2000;

/// What a run is asked to do.
#[derive(Clone, Copy)]
pub enum Order {
    /// Print the scheme of each function.
    Types,
    /// Print the same; if the text is refused, print the refusal with its line of the source and its reasons.
    Explain,
    /// Print the schemes, and after each one the place and the type of each node of the function's body.
    Annot,
    /// Print the listing of the program's code.
    Code,
    /// Print the program in its layout.
    Fmt,
    /// Print the text laid out anew with its own tokens, comments and line breaks.
    Tidy,
    /// Call a function by the program's code, with at most so many calls, and print its value.
    Run { budget: u64 },
    /// The same, and then print the number of steps that the machine made.
    Steps { budget: u64 },
    /// Call a function by the program's tree, with at most so many calls, and print its value.
    Eval { budget: u64 },
    /// Call a function with at most so many calls, and print its value, or where the call stops.
    Trace { budget: u64 },
    /// Call a function with at most so many calls, and print its value with so many digits after the point.
    Show { digits: u32, budget: u64 },
    /// Say whether a function may be used at a signature.
    Conform,
    /// Print the program with its literals in other sizes of the base units.
    Rescale,
    /// Call a function, with at most so many calls, and again in other sizes of the base units, and print both values.
    Twin { budget: u64 },
    /// Infer a generated program of so many functions, call its last function, and print four lines about it.
    Big(u32),
    /// Print a certificate of each function's scheme, up to the first function that has none and why.
    Prove,
    /// Write the image of the program's code as bytes.
    Image,
    /// Call a function of an image, with at most so many calls, and print its value.
    Exec { budget: u64 },
    /// Call functions of one program by its code, each with at most so many calls, and print their values.
    Calls { budget: u64 },
}

/// What an order takes from the source, and what is asked of it.
#[derive(Clone, Copy)]
pub enum Intake {
    /// Nothing: the source stays as it was. The text is that of a generated program of so many functions.
    Generated { functions: u32 },
    /// A text of at most 1,048,576 bytes, with its tokens.
    Text(TextOrder),
    /// Bytes as they are, at most 16,777,216 of them.
    Bytes(BytesOrder),
}

/// What is asked of a text: the orders of [`Order`] that take one.
#[derive(Clone, Copy)]
pub enum TextOrder {
    Types,
    Explain,
    Annot,
    Code,
    Fmt,
    Tidy,
    Run { budget: u64 },
    Steps { budget: u64 },
    Eval { budget: u64 },
    Trace { budget: u64 },
    Show { digits: u32, budget: u64 },
    Conform,
    Rescale,
    Twin { budget: u64 },
    Prove,
    Image,
}

/// What is asked of bytes: the orders of [`Order`] that take them as they are.
#[derive(Clone, Copy)]
pub enum BytesOrder {
    /// They are an image, of which a function is called with at most so many calls.
    Exec { budget: u64 },
    /// They are a program and the lines of its calls, each of at most so many.
    Calls { budget: u64 },
}

impl Order {
    /// What it takes from the source, and what is asked of it. Takes no memory.
    pub fn intake(self) -> Intake
        ensures { result ≡ intake_of self }
    {
        match self {
            Order::Types => Intake::Text(TextOrder::Types),
            Order::Explain => Intake::Text(TextOrder::Explain),
            Order::Annot => Intake::Text(TextOrder::Annot),
            Order::Code => Intake::Text(TextOrder::Code),
            Order::Fmt => Intake::Text(TextOrder::Fmt),
            Order::Tidy => Intake::Text(TextOrder::Tidy),
            Order::Run { budget } => Intake::Text(TextOrder::Run { budget }),
            Order::Steps { budget } => Intake::Text(TextOrder::Steps { budget }),
            Order::Eval { budget } => Intake::Text(TextOrder::Eval { budget }),
            Order::Trace { budget } => Intake::Text(TextOrder::Trace { budget }),
            Order::Show { digits, budget } => Intake::Text(TextOrder::Show { digits, budget }),
            Order::Conform => Intake::Text(TextOrder::Conform),
            Order::Rescale => Intake::Text(TextOrder::Rescale),
            Order::Twin { budget } => Intake::Text(TextOrder::Twin { budget }),
            Order::Big(functions) => Intake::Generated { functions },
            Order::Prove => Intake::Text(TextOrder::Prove),
            Order::Image => Intake::Text(TextOrder::Image),
            Order::Exec { budget } => Intake::Bytes(BytesOrder::Exec { budget }),
            Order::Calls { budget } => Intake::Bytes(BytesOrder::Calls { budget }),
        }
    }
}

impl TextOrder {
    /// Whether it calls a function. Takes no memory.
    pub fn calls(self) -> bool
        ensures { result ≡ calls self }
    {
        match self {
            TextOrder::Types => false,
            TextOrder::Explain => false,
            TextOrder::Annot => false,
            TextOrder::Code => false,
            TextOrder::Fmt => false,
            TextOrder::Tidy => false,
            TextOrder::Run { budget: _ } => true,
            TextOrder::Steps { budget: _ } => true,
            TextOrder::Eval { budget: _ } => true,
            TextOrder::Trace { budget: _ } => true,
            TextOrder::Show {
                digits: _,
                budget: _,
            } => true,
            TextOrder::Conform => false,
            TextOrder::Rescale => false,
            TextOrder::Twin { budget: _ } => true,
            TextOrder::Prove => false,
            TextOrder::Image => false,
        }
    }
}

/// The order that the words name, or nothing if they have none of the forms. Takes no memory.
///
/// The forms are `types`, `explain`, `annot`, `code`, `fmt`, `tidy`, `prove`, `image`, `big N`, `rescale SIZES`,
/// `calls BUDGET`, `conform NAME TYPE`, `twin BUDGET SIZES NAME ARG*`, `show DIGITS UNITS BUDGET NAME ARG*`, and `run`,
/// `steps`, `eval`, `trace` or `exec` with BUDGET NAME ARG*. A budget is one to eight digits of value at most
/// 10,000,000, N is one to four digits of value 1 to 2,000, DIGITS is one or two digits of value at most 18, SIZES
/// states sizes of base units (`um_sizes::is_scales` says how), and each word is at most 1,048,576 bytes long. UNITS is
/// any word here: whether it states units (`um_display::is_units`) is asked before anything is read.
pub fn order_of(words: &Words) -> Option<Order>
    ensures { result ≡ order_named words.now }
{
    if !words.are_short() {
        return None;
    }
    if words.len() == 1 {
        return order_alone(words.word(0));
    }
    if words.len() == 2 {
        return order_of_two(words.word(0), words.word(1), words.states_sizes(1));
    }
    if words.len() < 3 {
        return None;
    }
    longer_order(words)
}

/// The order of a command of one word.
fn order_alone(word: &str) -> Option<Order>
    ensures { result ≡ alone word.now }
{
    match word {
        "types" => Some(Order::Types),
        "explain" => Some(Order::Explain),
        "annot" => Some(Order::Annot),
        "code" => Some(Order::Code),
        "fmt" => Some(Order::Fmt),
        "tidy" => Some(Order::Tidy),
        "prove" => Some(Order::Prove),
        "image" => Some(Order::Image),
        _ => None,
    }
}

/// The order of two words; `stated` says whether the second one states sizes.
fn order_of_two(word: &str, second: &str, stated: bool) -> Option<Order>
    requires { stated ≡ are_sizes second.now }
    ensures { result ≡ of_two word.now second.now }
{
    match word {
        "big" => big_order(count_of(second)),
        "rescale" => rescale_order(stated),
        "calls" => calls_order(budget_of(second)),
        _ => None,
    }
}

/// The order about a generated program, by its number of functions.
fn big_order(count: Option<u32>) -> Option<Order>
    ensures { result ≡ big_named count }
{
    let functions = count?;
    Some(Order::Big(functions))
}

/// The order about a text in other sizes, if the word states sizes.
fn rescale_order(stated: bool) -> Option<Order>
    ensures { result ≡ rescale_named stated }
{
    if stated { Some(Order::Rescale) } else { None }
}

/// The order about many calls, if there is a budget.
fn calls_order(budget: Option<u64>) -> Option<Order>
    ensures { result ≡ calls_named budget }
{
    let budget = budget?;
    Some(Order::Calls { budget })
}

/// The order of three words or more.
fn longer_order(words: &Words) -> Option<Order>
    requires { 2 < length words.now }
    ensures { result
        ≡ longer (get_or words.now 0 []) (get_or words.now 1 []) (get_or words.now 2 []) (drop 3 words.now) }
{
    if words.len() == 3 {
        return order_of_three(words.word(0), budget_of(words.word(1)));
    }
    if words.len() == 4 {
        return sized_order(words);
    }
    longest_order(words)
}

/// The order of five words or more.
fn longest_order(words: &Words) -> Option<Order>
    requires { 4 < length words.now }
    ensures { result
        ≡ longest (get_or words.now 0 []) (get_or words.now 1 []) (get_or words.now 2 []) (get_or words.now 3 []) }
{
    match words.word(0) {
        "show" => show_order(digits_of(words.word(1)), budget_of(words.word(3))),
        _ => sized_order(words),
    }
}

/// The order of more than three words whose third one may state sizes.
fn sized_order(words: &Words) -> Option<Order>
    requires { 3 < length words.now }
    ensures { result ≡ of_many (get_or words.now 0 []) (budget_in (get_or words.now 1 []))
        (are_sizes (get_or words.now 2 [])) }
{
    order_of_many(
        words.word(0),
        budget_of(words.word(1)),
        words.states_sizes(2),
    )
}

/// The order of three words, by the first one and by the budget that the second one may state.
fn order_of_three(word: &str, budget: Option<u64>) -> Option<Order>
    ensures { result ≡ of_three word.now budget }
{
    match word {
        "conform" => Some(Order::Conform),
        _ => call_order(word, budget),
    }
}

/// The order of more words; `stated` says whether the third one states sizes.
fn order_of_many(word: &str, budget: Option<u64>, stated: bool) -> Option<Order>
    ensures { result ≡ of_many word.now budget stated }
{
    match word {
        "twin" => twin_order(budget, stated),
        _ => call_order(word, budget),
    }
}

/// The order that calls a function twice, if there is a budget and the third word states sizes.
fn twin_order(budget: Option<u64>, stated: bool) -> Option<Order>
    ensures { result ≡ twin_named budget stated }
{
    let budget = budget?;
    if stated {
        Some(Order::Twin { budget })
    } else {
        None
    }
}

/// The order that prints a value with so many digits, if they and the budget are stated.
fn show_order(digits: Option<u32>, budget: Option<u64>) -> Option<Order>
    ensures { result ≡ show_named digits budget }
{
    let digits = digits?;
    let budget = budget?;
    Some(Order::Show { digits, budget })
}

/// The order that calls a function, by its first word and the budget.
fn call_order(word: &str, budget: Option<u64>) -> Option<Order>
    ensures { result ≡ call_named word.now budget }
{
    let budget = budget?;
    match word {
        "run" => Some(Order::Run { budget }),
        "steps" => Some(Order::Steps { budget }),
        "eval" => Some(Order::Eval { budget }),
        "trace" => Some(Order::Trace { budget }),
        "exec" => Some(Order::Exec { budget }),
        _ => None,
    }
}

/// The budget that a word states, if it is one to eight digits of value at most 10,000,000.
fn budget_of(word: &str) -> Option<u64>
    ensures { result ≡ budget_in word.now }
{
    if !has_few_digits(word) {
        return None;
    }
    let budget = value_of(word);
    if budget <= GREATEST_BUDGET {
        Some(budget)
    } else {
        None
    }
}

/// The number of digits that a word states, if it is one or two digits of value at most 18.
fn digits_of(word: &str) -> Option<u32>
    ensures { result ≡ digits_in word.now }
{
    if !has_few_digits(word) {
        return None;
    }
    let digits = value_of(word);
    if word.len() <= 2 && digits <= MOST_DIGITS {
        Some(digits as u32)
    } else {
        None
    }
}

/// The number of functions that a word states, if it is one to four digits of value 1 to 2,000.
fn count_of(word: &str) -> Option<u32>
    ensures { result ≡ count_in word.now }
{
    if !has_few_digits(word) {
        return None;
    }
    let count = value_of(word);
    if word.len() <= 4 && 1 <= count && count <= MOST_FUNCTIONS {
        Some(count as u32)
    } else {
        None
    }
}

/// Whether the word is one to eight digits.
fn has_few_digits(word: &str) -> bool
    ensures { result ≡ are_few_digits word.now }
{
    !word.is_empty() && word.len() <= 8 && has_digits_alone(word)
}

fn has_digits_alone(word: &str) -> bool
    ensures { result ≡ list_all is_ascii_digit word.now }
{
    word.as_bytes().iter().all(|byte| byte.is_ascii_digit())
}

/// The number that one to eight digits write.
fn value_of(digits: &str) -> u64
    requires { IsTrue (are_few_digits digits.now) }
    ensures { result ≡ digits_value 10 digits.now }
{
    match u64::from_str_radix(digits, 10) {
        Ok(value) => value,
        Err(_) => unreachable!(),
    }
}
