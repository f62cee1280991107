//! Commands, places and arguments, one call each.
use cg_grammar::{
    Base, Command, Given, Setting, barred_at, command_of, curve_limit, has_ending, is_file,
    is_over_at, is_whole, is_zero, may_part, setting_of, takes_error, takes_file, takes_text,
    takes_value,
};
use cg_model::GroupKind;

static COMMANDS: [(&str, Option<Command>); 13] = [
    ("Date", Some(Command::Date)),
    ("Boundary", Some(Command::Boundary)),
    ("C_Date", Some(Command::CDate)),
    ("R_Date", Some(Command::RDate)),
    ("Sequence", Some(Command::Group(GroupKind::Sequence))),
    ("Phase", Some(Command::Group(GroupKind::Phase))),
    ("After", Some(Command::Group(GroupKind::After))),
    ("Before", Some(Command::Group(GroupKind::Before))),
    ("Plot", Some(Command::Plot)),
    ("Options", Some(Command::Options)),
    ("Curve", Some(Command::Curve)),
    ("Dates", None),
    ("", None),
];

#[test]
fn words_of_commands(rt: HostRuntime) {
    for (word, want) in &COMMANDS {
        assert_eq!(rt; command_of(word.as_bytes()), *want, "{word}");
    }
}

static SETTINGS: [(&str, Option<Setting>); 17] = [
    ("Cubic", Some(Setting::False)),
    ("UniformSpanPrior", Some(Setting::False)),
    ("UseF14C", Some(Setting::False)),
    ("Intercept", Some(Setting::False)),
    ("Resolution", Some(Setting::One)),
    ("Curve", Some(Setting::Curve)),
    ("BCAD", Some(Setting::Ignored)),
    ("PlusMinus", Some(Setting::Ignored)),
    ("SD1", Some(Setting::Ignored)),
    ("SD2", Some(Setting::Ignored)),
    ("SD3", Some(Setting::Ignored)),
    ("RawData", Some(Setting::Ignored)),
    ("ConvergenceData", Some(Setting::Ignored)),
    ("kIterations", Some(Setting::Ignored)),
    ("Ensembles", Some(Setting::Ignored)),
    ("SD4", None),
    ("cubic", None),
];

#[test]
fn words_of_options(rt: HostRuntime) {
    for (word, want) in &SETTINGS {
        assert_eq!(rt; setting_of(word.as_bytes()), *want, "{word}");
    }
}

#[test]
fn places(rt: HostRuntime) {
    let sequence = Some(GroupKind::Sequence);
    assert!(rt; barred_at(Base::Script, sequence, 15, 99, 60, true, Command::Boundary).is_none());
    assert!(rt; barred_at(Base::Single, None, 0, 0, 0, false, Command::Boundary).is_none());
    assert!(rt; barred_at(Base::Plot, None, 0, 0, 0, false, Command::Boundary).is_some());
    assert!(rt; barred_at(Base::Script, sequence, 16, 0, 0, false, Command::Date).is_some());
    assert!(rt; barred_at(Base::Plot, None, 0, 0, 0, false, Command::Plot).is_some());
    assert!(rt; curve_limit(false).is_none() && curve_limit(true).is_some());
    assert!(rt; is_over_at(Base::Single, None, true) && !is_over_at(Base::Script, None, true));
}

#[test]
fn arguments(rt: HostRuntime) {
    assert!(rt; takes_text(Command::Date, "") && !takes_text(Command::Date, "=a"));
    assert!(rt; takes_text(Command::Curve, "=a") && !takes_text(Command::Options, "a"));
    assert!(rt; takes_file(Command::Curve, "a") && !takes_file(Command::CDate, "a"));
    assert!(rt; is_file("a") && !is_file("") && has_ending(b"a.14C") && !has_ending(b"14c"));
    assert!(rt; takes_value(Command::CDate, -58_051_000) && !takes_value(Command::CDate, 1_500));
    assert!(rt; takes_value(Command::RDate, -2_000_000) && !takes_value(Command::Date, 1_000));
    assert!(rt; takes_error(Command::CDate, 0) && !takes_error(Command::RDate, 999) && is_zero(0));
    assert!(rt;
        may_part(Command::RDate, &Given::One("a")) && !may_part(Command::Date, &Given::One("a"))
    );
    assert!(rt; is_whole(Command::CDate, &Given::Value(None, 1_000)));
    assert!(rt; !is_whole(Command::RDate, &Given::Value(Some("a"), 1_000)));
    assert!(rt;
        is_whole(Command::Curve, &Given::Two("", "a")) && !is_whole(Command::Curve, &Given::Nothing)
    );
}
