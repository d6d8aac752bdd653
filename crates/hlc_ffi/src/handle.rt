//! How a call uses what a handle contains.

/// Makes a call on the core of an open store, and puts the core back. Returns 100 for a closed store. The words in
/// brackets are set to 0 first.
macro_rules! on_core {
    ($alloc:expr, $store:expr, [$($word:ident),*], |$core:ident| $call:expr) => {{
        $(*$word = 0;)*
        on_core!($alloc, $store, |$core| $call)
    }};
    ($alloc:expr, $store:expr, |$core:ident| $call:expr) => {
        match $store.take($alloc) {
            None => 100,
            Some(taken) => {
                let mut handle = taken;
                let $core: &mut hlc_core::Core = &mut handle;
                let code = $call;
                $store.put(handle);
                code
            }
        }
    };
}

/// Makes a call that only reads the core of an open store. Returns 100 for a closed store. The words in brackets are
/// set to 0 first.
macro_rules! of_core {
    ($reader:expr, [$($word:ident),*], |$core:ident| $call:expr) => {{
        $(*$word = 0;)*
        of_core!($reader, |$core| $call)
    }};
    ($reader:expr, |$core:ident| $call:expr) => {
        match $reader.take() {
            None => 100,
            Some(lent) => {
                let $core: &hlc_core::Core = lent.core();
                let code = $call;
                $reader.put(lent);
                code
            }
        }
    };
}

/// Makes a call that returns boxed bytes, for an output that has none. Returns 108, and makes no call, if it has.
macro_rules! into_output {
    ($alloc:expr, $output:expr, $len:expr, $call:expr) => {
        match $output.take($alloc) {
            Some(kept) => {
                $output.put(kept);
                108
            }
            None => match $call {
                Ok(made) => {
                    *$len = made.len();
                    $output.put(made);
                    0
                }
                Err(code) => code,
            },
        }
    };
}

pub(crate) use into_output;
pub(crate) use of_core;
pub(crate) use on_core;
