// What the check of a statement goes over.
ghost use Rattle.heads.specs.Scopes.{Within};

use heads::class::Scope;

// The bytes up to the end of a class, and what its statement may name, which stands within them.
// Place and levels left stay parameters of its checks: each part has others,
// so a struct of both would be made anew for each call.
#[derive(Clone, Copy)]
pub(crate) struct Body<'a> {
    pub(crate) file: &'a [u8],
    pub(crate) scope: Scope,
    ghost within: { Within file.now scope },
}
