// The operands of SEND and RECV.
ghost use Rattle.std.specs.Prelude.{◌≡◌, ◌≤◌, true, ◌&&◌, length};
ghost use Rattle.files.specs.Statements.{exchange_fits, distinct, all_below, all_unused, variables_fit};

// Marks a variable of a RECV that is not used. A number, since the byte FF is the file's format.
const UNUSED: u8 = 255;

// Channel, message and count stay parameters, here and in the checks: a command has them apart.
pub(crate) fn exchange_fits(channel: u8, message: u8, count: u8) -> bool
    ensures { result ≡ exchange_fits channel message count }
{
    channel < 32 && message < 255 && count < 5
}

// Whether no two are the same.
fn are_distinct(list: &[u8]) -> bool
    ensures { result ≡ distinct list.now }
{
    match list {
        [] => true,
        [first, rest @ ..] => !rest.contains(first) && are_distinct(rest),
    }
}

fn are_below(bound: u8, list: &[u8]) -> bool
    ensures { result ≡ all_below bound list.now }
{
    list.iter().all(|x| *x < bound)
}

fn are_unused(list: &[u8]) -> bool
    ensures { result ≡ all_unused list.now }
{
    list.iter().all(|x| *x == UNUSED)
}

// The variables of a RECV: the used ones exist and differ, the others are FF.
fn variables_fit(variables: u8, count: u8, list: &[u8]) -> bool
    requires { count ≤ length list.now }
    ensures { result ≡ variables_fit variables count list.now }
{
    let (used, unused) = list.split_at(count as usize);
    are_below(variables, used) && are_distinct(used) && are_unused(unused)
}

// The operands of a RECV are within their bounds.
pub(crate) fn receive_fits(variables: u8, channel: u8, message: u8, count: u8, list: &[u8]) -> bool
    requires { length list.now ≡ 4 }
    ensures exact { result ≡ (exchange_fits channel message count && variables_fit variables count list.now) }
    ensures few { result ≡ true → count ≤ 4 }
{
    exchange_fits(channel, message, count) && variables_fit(variables, count, list)
}
