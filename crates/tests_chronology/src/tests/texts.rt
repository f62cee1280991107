//! Models of texts.
use cg_cql::read_model;
use cg_grammar::CqlFault;
use cg_model::ModelTree;
use std::alloc::Global;
use std::test::Fail;

const MAX_BYTES: usize = 100_000;

fn read_short(alloc: Global, text: &str) -> Result<ModelTree, Option<CqlFault>> {
    if text.len() > MAX_BYTES {
        return Err(None);
    }
    match read_model(alloc, text.as_bytes()) {
        Ok(model) => Ok(model),
        Err(fault) => Err(Some(fault)),
    }
}

pub(crate) fn model(alloc: Global, text: &str) -> Result<ModelTree, Fail> {
    match read_short(alloc, text) {
        Ok(model) => Ok(model),
        Err(_) => Err("no model".into()),
    }
}
