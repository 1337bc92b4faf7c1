// The sizes of the structs that cross to C, in bytes. A C compiler holds their fields' places too: rust/stack-assembly/tests/c/layout.c.

use crate::beside::Located;
use crate::compilation::Compiled;
use eval::{Answer, Eval, State};
use records::Tables;
use std::mem::size_of;

const _: () = prove!(size_of::<State>() == 32);

const _: () = prove!(size_of::<Tables<'static>>() == 64);

const _: () = prove!(size_of::<Eval<'static>>() == 144);

const _: () = prove!(size_of::<Answer>() == 16);

const _: () = prove!(size_of::<Compiled>() == 32);

const _: () = prove!(size_of::<Located>() == 32);
