//! The texts of some numbers: the expected ones are of `cases/gen_cases.py`.
use cg_cql::read_model;
use cg_curve::read_curve;
use cg_gen::{Inputs, generate};
use cg_report::fingerprint;
use cg_script::read_script;
use std::alloc::Global;
use std::test::Fail;

const MAX_BYTES: usize = 100_000;

/// A number, and the SHA-256 of its curve, its model and its scripts.
static NUMBERS: [(u32, [&str; 6]); 4] = [
    (
        0,
        [
            "20c832f0d8d91cb4db36b5f87c39232273c25f668b3ff30655fa3cbf6820fd57",
            "4a2c50dd858dae391a02564164a8862d563c8e3d3b46ebf8e6eff85553a0d75c",
            "fbc0e1659dc483ae78a2aa8c7131a001cc7727bc978f52badec255cc56700b62",
            "87eef7321442d385e4e2d2d53e72b2e704dcd5f34a1e0cc0b3916929fd035bcb",
            "150488c65cf755aba331beb8168096d213781cc863ade33d0aad49ef4b64193c",
            "fe3e403a1a0181ab790024fe9998504a5d879ec70fd16f55c59fd57cf4e6650b",
        ],
    ),
    (
        7,
        [
            "993e8511b75b685cc652f5e3f91e83829d2e7de36dc9e82749619ac352b4467e",
            "176606e0f57ee48a37111facfd9accf7788d0a68b6754aa286f02b49c760fa74",
            "793be9f059a2686817464b3c9099ea2ee51198ce138f261df13252940f6774e0",
            "5c313f865598ff53b0e0f309e6ed4f61407974544f1c38bad9aa164ddd2ea843",
            "0e48124aedef1e87715ca446ef7b89be708be5aedfb32aa4c89aca5b7405b471",
            "6334788be7ed066f0e08f733dfcb964d4a7e4136a2f2c54dfc39ae42ac6fc376",
        ],
    ),
    (
        1_000_000,
        [
            "94a1447dd64d4c341d7e7b98b32bf0a4b9973000c468e795c74223b3e372e67c",
            "2a832c7efcf79b426a7da6fd93341ce348e358a1138c84b31d15e291e6819570",
            "fb996fdb803875612cca1fb68b86b6e73a1d6eb9b35b3af8de215c9f3a3c25a2",
            "6a2a1a1c8043be253e6a5dc4ae523b4b6c1828c57c54416dcbc0f5127ec97c28",
            "95315ab27d0e466ca4f29a8d32b1149e90292f29d0b0fb3647a8b3ea8afb3cc1",
            "81b72730031822a7a0782d34157779ea67eded233e13fcfa112f20b93ce24486",
        ],
    ),
    (
        4_294_967_295,
        [
            "234001d1fa5902d03d6090a02bcef70b34553f61f20cc45574d601be1d6b8f79",
            "50e20a97ab0f3c58802b18afce18b9621fb57d0854f1e3fd58cb13a915ccdeaa",
            "5e9980bb55f65a85db65001a46e1aed2ba68cbcf125d3d128be0b305c40cf9b5",
            "e3197b53239220caed83a3c8823345bf959b8927832ffdb9459bdedbbccd1dd5",
            "d6119fb5c353b6dee3f3486d4d37c2bd98f52b844fa01e5704a301758470a041",
            "966c0b9a7ab5f9da601686c36026e18b27747628c00e08718fb62ac43321654f",
        ],
    ),
];

fn fingerprint_of(alloc: Global, bytes: &[u8]) -> Result<String, Fail> {
    let mut text = Vec::new(alloc);
    fingerprint(alloc, bytes, &mut text)?;
    Ok(String::from_utf8(text)?)
}

fn fingerprints_of(alloc: Global, inputs: &Inputs) -> Result<Vec<String>, Fail> {
    let mut list = Vec::new(alloc);
    list.push(fingerprint_of(alloc, inputs.curve())?)?;
    list.push(fingerprint_of(alloc, inputs.model())?)?;
    for k in 0..4 {
        list.push(fingerprint_of(alloc, inputs.script(k))?)?;
    }
    Ok(list)
}

/// Each text of each number is the expected one.
#[test]
fn texts_of_numbers(rt: HostRuntime) -> Result<(), Fail> {
    for (number, expected) in &NUMBERS {
        let inputs = generate(rt.alloc(), *number)?;
        let told = fingerprints_of(rt.alloc(), &inputs)?;
        for (place, text) in expected.iter().enumerate() {
            assert!(rt; place < told.len());
            assert_eq!(rt; told[place].as_str(), *text, "text {place} of {number}");
        }
    }
    Ok(())
}

/// What the texts of 7 begin with, and how a script ends.
#[test]
fn texts_of_seven(rt: HostRuntime) -> Result<(), Fail> {
    let inputs = generate(rt.alloc(), 7)?;
    let script = inputs.script(0);
    assert!(rt;
        inputs
            .curve()
            .starts_with(b"# generated\n3000,2949,17\n2990,2922,11\n")
    );
    assert!(rt;
        inputs.model().starts_with(
            b"Curve(\"C.14c\");\nSequence(\"s\"){\n Boundary(\"b0\");\n Phase(\"p0\"){\n"
        )
    );
    assert!(rt; script.starts_with(b"open main\ngrid 2799 2600\nprint \"d0\"\nprint \"d1\"\n"));
    assert!(rt;
        script.ends_with(b"set \"d4\" R_Date(2687,29);\nranges \"b1\"\ncommit main\nwork\n")
    );
    Ok(())
}

fn is_curve(alloc: Global, bytes: &[u8]) -> bool {
    bytes.len() <= MAX_BYTES && read_curve(alloc, bytes).is_ok()
}

fn is_model(alloc: Global, bytes: &[u8]) -> bool {
    bytes.len() <= MAX_BYTES && read_model(alloc, bytes).is_ok()
}

fn is_script(alloc: Global, bytes: &[u8]) -> bool {
    bytes.len() <= MAX_BYTES && read_script(alloc, bytes).is_ok()
}

/// The texts are read as a curve, a model and scripts.
#[test]
fn texts_are_read(rt: HostRuntime) -> Result<(), Fail> {
    for (number, _) in &NUMBERS {
        let inputs = generate(rt.alloc(), *number)?;
        assert!(rt; is_curve(rt.alloc(), inputs.curve()), "curve of {number}");
        assert!(rt; is_model(rt.alloc(), inputs.model()), "model of {number}");
        for k in 0..4 {
            assert!(rt;
                is_script(rt.alloc(), inputs.script(k)),
                "script {k} of {number}"
            );
        }
    }
    Ok(())
}
