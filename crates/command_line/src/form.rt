ghost use Rattle.std.specs.Prelude.{◌≡◌, ◌↔◌, IfNone, IfSome, IsTrue, Some, codes, option_map};
ghost use Rattle.clap.specs.Words.{first_of, found_of, rows_of, subcommand_rows_of};
ghost use Rattle.command_line.specs.Words.{Form as Named, HasSizes, form_of, sizes_named};
ghost use Rattle.command_line.specs.Commands.{bench_of, check_of, met_form, new_of, number_at, run_of};

use clap::ArgMatches;
use nvm_base::read_number;
use word_tables::Geometry;

// The most rounds of a workload.
const MOST_ROUNDS: u64 = 100_000;

/// A form of the command line.
#[derive(Clone, Copy, Debug, PartialEq, Eq)]
pub enum Form<'a> {
    /// A new machine's image, of survival unit 8: a power cut keeps or loses a word whole.
    New { image: &'a str, geometry: Geometry },
    /// A script, run on one image and leaving another.
    Run { from: &'a str, to: &'a str },
    /// An image, looked over.
    Check { image: &'a str },
    /// A workload, run on a fresh image.
    Bench { seed: u64, count: u64 },
    /// The image of a new machine of survival unit 1: a power cut keeps or loses each byte independently.
    NewByte { image: &'a str, geometry: Geometry },
}

impl<'a> Form<'a> {
    /// The form of the command that was met, if its sizes are within their limits.
    pub(crate) fn of(matches: &ArgMatches<'a>) -> Option<Form<'a>>
        ensures form { IfSome result (λ form. (met_form (subcommand_rows_of matches.now) ≡ Some (form_of form))
            × HasSizes (form_of form)) }
        ensures none { IfNone result ((form : Named) → met_form (subcommand_rows_of matches.now) ≡ Some form
            → HasSizes form → ⊥) }
    {
        let form = named_form(matches)?;
        if form.has_sizes() { Some(form) } else { None }
    }

    // Whether its sizes are within their limits.
    fn has_sizes(&self) -> bool
        ensures { IsTrue result ↔ HasSizes (form_of self.now) }
    {
        match self {
            Form::New { geometry, .. } | Form::NewByte { geometry, .. } => geometry.valid(),
            Form::Run { .. } | Form::Check { .. } => true,
            Form::Bench { count, .. } => (1..=MOST_ROUNDS).contains(count),
        }
    }
}

// The form of the command that was met, with any sizes.
fn named_form<'a>(matches: &ArgMatches<'a>) -> Option<Form<'a>>
    ensures { option_map form_of result ≡ met_form (subcommand_rows_of matches.now) }
{
    let (name, values) = matches.subcommand()?;
    match name {
        "new" => new_form(values),
        "run" => run_form(values),
        "check" => check_form(values),
        "bench" => bench_form(values),
        "newbyte" => new_byte_form(values),
        _ => None,
    }
}

fn new_form<'a>(values: &ArgMatches<'a>) -> Option<Form<'a>>
    ensures { option_map form_of result ≡ new_of 8 (rows_of (found_of values.now)) }
{
    Some(Form::New {
        image: text(values, "IMAGE")?,
        geometry: geometry(values)?,
    })
}

fn run_form<'a>(values: &ArgMatches<'a>) -> Option<Form<'a>>
    ensures { option_map form_of result ≡ run_of (rows_of (found_of values.now)) }
{
    Some(Form::Run {
        from: text(values, "IN")?,
        to: text(values, "OUT")?,
    })
}

fn check_form<'a>(values: &ArgMatches<'a>) -> Option<Form<'a>>
    ensures { option_map form_of result ≡ check_of (rows_of (found_of values.now)) }
{
    Some(Form::Check {
        image: text(values, "IN")?,
    })
}

fn bench_form<'a>(values: &ArgMatches<'a>) -> Option<Form<'a>>
    ensures { option_map form_of result ≡ bench_of (rows_of (found_of values.now)) }
{
    Some(Form::Bench {
        seed: number(values, "SEED")?,
        count: number(values, "N")?,
    })
}

fn new_byte_form<'a>(values: &ArgMatches<'a>) -> Option<Form<'a>>
    ensures { option_map form_of result ≡ new_of 1 (rows_of (found_of values.now)) }
{
    Some(Form::NewByte {
        image: text(values, "IMAGE")?,
        geometry: geometry(values)?,
    })
}

// The sizes that the values name.
fn geometry(values: &ArgMatches<'_>) -> Option<Geometry>
    ensures { result ≡ sizes_named
        (number_at (codes "BLOCKS") (rows_of (found_of values.now)))
        (number_at (codes "VPAGES") (rows_of (found_of values.now)))
        (number_at (codes "FPAGES") (rows_of (found_of values.now))) }
{
    Some(Geometry {
        blocks: number(values, "BLOCKS")?,
        vpages: number(values, "VPAGES")?,
        fpages: number(values, "FPAGES")?,
    })
}

// The number that a value is.
fn number(values: &ArgMatches<'_>, name: &str) -> Option<u64>
    ensures { result ≡ number_at name.now (rows_of (found_of values.now)) }
{
    read_number(text(values, name)?.as_bytes())
}

// The value of this name.
fn text<'a>(values: &ArgMatches<'a>, name: &str) -> Option<&'a str>
    ensures { option_map (λ text. text.now) result ≡ first_of name.now (rows_of (found_of values.now)) }
{
    values.get_str(name)
}
