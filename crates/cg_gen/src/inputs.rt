ghost use Rattle.std.specs.Prelude.{◌≡◌, ◌<◌, [], IfOk, map, slice_index_or, vec_items};
ghost use Rattle.cg_gen.specs.Texts.{scripts, texts};

use crate::curve::curve_text;
use crate::draws::Draws;
use crate::model::model_text;
use crate::script::script_text;
use cg_num::NoMemory;
use std::alloc::Global;
use std::marker::Model;

const SCRIPTS: u32 = 4;

/// A curve, a model and four scripts.
#[derive(Drop)]
pub struct Inputs {
    curve: Vec<u8>,
    model: Vec<u8>,
    scripts: Vec<Vec<u8>>,
}

impl Model for Inputs {
    ghost use Rattle.std.specs.Prelude.{◌≡◌, map, vec_items, vec_len};
    ghost use Rattle.cg_gen.specs.Texts.{Texts};

    ghost Value = { Texts };

    ghost view = { λ i. record {
      curve = i.curve.items;
      model = i.model.items;
      scripts = map vec_items i.scripts.items;
    } };

    ghost invariant = { λ i. vec_len i.scripts ≡ 4 };
}

impl Inputs {
    /// The file of the curve.
    pub fn curve(&self) -> &[u8]
        ensures { result.now ≡ self.now.curve }
    {
        &self.curve
    }

    /// The file of the model, in its canonical form.
    pub fn model(&self) -> &[u8]
        ensures { result.now ≡ self.now.model }
    {
        &self.model
    }

    /// The file of script `k`, from 0.
    pub fn script(&self, k: usize) -> &[u8]
        requires { k < 4 }
        ensures { result.now ≡ slice_index_or self.now.scripts k [] }
    {
        &self.scripts[k]
    }
}

/// The texts of a number.
pub fn generate(alloc: Global, number: u32) -> Result<Inputs, NoMemory>
    ensures { IfOk result (λ inputs. inputs ≡ texts number) }
{
    let draws = &mut Draws::new(number);
    let curve = curve_text(alloc, draws)?;
    let model = model_text(alloc, draws)?;
    let scripts = scripts(alloc, draws)?;
    Ok(Inputs {
        curve,
        model,
        scripts,
    })
}

fn scripts(alloc: Global, draws: &mut Draws) -> Result<Vec<Vec<u8>>, NoMemory>
    ensures { IfOk result (λ list. map vec_items list.items ≡ scripts draws.old) }
{
    let mut scripts = Vec::new(alloc);
    for k in 0..SCRIPTS {
        scripts.push(script_text(alloc, k, draws)?)?;
    }
    Ok(scripts)
}
