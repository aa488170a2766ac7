ghost use Rattle.std.specs.Prelude.{◌≡◌};
ghost use Rattle.page_table.specs.Pages.{IsBelow, unit_of, word_of};

pub(crate) fn unit_of(word: u64) -> Option<u64>
    ensures { result ≡ unit_of word }
{
    match word {
        0 => None,
        _ => Some(word - 1),
    }
}

pub(crate) fn word_of(unit: Option<u64>) -> u64
    requires { IsBelow 1024 unit }
    ensures word { result ≡ word_of unit }
    ensures inverse { unit_of result ≡ unit }
{
    match unit {
        None => 0,
        Some(unit) => unit + 1,
    }
}
