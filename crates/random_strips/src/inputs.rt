// A random call and what it is given.
use crate::calls::Call;
use crate::case::{Case, Given};
use crate::trial::Trial;
use crate::{picture_inputs, strip_inputs};
use std::alloc::{AllocError, Global};

pub(crate) fn case(alloc: Global, t: Trial) -> Result<Case, AllocError> {
    match t.call() {
        Call::Strip(call) => {
            let p = strip_inputs::numbers(call, t);
            Ok(Case {
                given: Given::Strip(call, p),
                input: strip_inputs::input(alloc, call, t, &p)?,
                file: vec![in alloc; 0; p.file]?,
            })
        }
        Call::Picture(call) => {
            let p = picture_inputs::numbers(call, t);
            Ok(Case {
                given: Given::Picture(call, p),
                input: picture_inputs::input(alloc, call, t, &p)?,
                file: picture_inputs::file(alloc, t, &p)?,
            })
        }
    }
}
