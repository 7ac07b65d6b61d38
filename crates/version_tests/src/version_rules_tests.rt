use doc_tree::{Name, Text};
use std::alloc::{AllocError, Global};
use std::cmp::Ordering;
use std::collections::BTreeMap;
use std::test::Fail;
use version_rules::{
    Need, Needs, Version, VersionFault, compare, meets, parse_constraint, parse_version,
    read_constraint, read_version,
};

// A constraint and a version, and whether it meets the constraint: worked out by hand from the inequalities between
// triples.
const MEETINGS: &str = "= 1.2.0, 1.2 => met
1.2.3, 1.2.3 => met
1.2.3, 1.2.4 => not met
= 1.2.3, 1.2.3 => met
= 1.2.3, 1.3.3 => not met
= 1.2, 1.2.0 => met
= 1.2, 1.2.1 => not met
=1.2.3, 1.2.3 => met
  = 1.2.3  , 1.2.3 => met
=   1.2.3, 1.2.3 => met
< 1.2.3, 1.2.2 => met
< 1.2.3, 1.2.3 => not met
< 1.2.3, 1.1.9 => met
< 1.2.3, 0.9.9 => met
< 1.2.3, 1.3.0 => not met
< 1.2.3, 2.0.0 => not met
< 0.0, 0.0.0 => not met
> 1.2.3, 1.2.4 => met
> 1.2.3, 1.2.3 => not met
> 1.2.3, 1.10.0 => met
> 1.9.0, 1.10.0 => met
> 1.2.3, 2.0.0 => met
> 1.2.3, 1.1.9 => not met
> 2.0, 1.99.99 => not met
> 01.002.3, 1.2.3 => not met
<= 1.2.3, 1.2.3 => met
<= 1.2.3, 1.2.2 => met
<= 1.2.3, 1.2.4 => not met
<= 2.0, 2.0.1 => not met
>= 1.2.3, 1.2.3 => met
>= 1.2.3, 1.2.2 => not met
>= 1.2.3, 1.3.0 => met
>= 1.2.3, 0.99.99 => not met
~> 2.2, 2.9.0 => met
~> 2.2, 3.0.0 => not met
~> 2.2, 2.2.0 => met
~> 2.2, 2.1.9 => not met
~> 2.2, 2.2.7 => met
~> 2.2.3, 2.2.9 => met
~> 2.2.3, 2.3.0 => not met
~> 2.2.3, 2.2.3 => met
~> 2.2.3, 2.2.2 => not met
~> 2.2.3, 3.2.3 => not met
~> 2.2.0, 2.2.5 => met
~> 2.2.0, 2.3.0 => not met
~>2.0, 2.0.0 => met
~> 0.0.0, 0.0.9 => met
~> 0.0.0, 0.1.0 => not met
~> 1.18446744073709551615, 1.18446744073709551615.7 => met
~> 1.18446744073709551615, 1.0.0 => not met
~> 18446744073709551615.0, 18446744073709551615.4.1 => met
~> 1.18446744073709551615.2, 1.18446744073709551615.3 => met
~> 1.18446744073709551615.2, 2.0.0 => not met
";

const BAD_CONSTRAINTS: &str = "~> 2 => PessimisticOnePart
~> 2  => PessimisticOnePart
~> 18446744073709551616 => PessimisticOnePart
!= 1.0 => NoSuchOperator
=< 1.0 => NoSuchOperator
== 1.0 => NoSuchOperator
~ 1.0 => NoSuchOperator
<=> 1 => NoSuchOperator
 => NotAVersion
= => NotAVersion
~> => NotAVersion
> 1 => NotAVersion
= 1 .0 => NotAVersion
> 1.2.3.4 => NotAVersion
> 1.18446744073709551616 => PartTooLarge
";

const BAD_VERSIONS: &str = "1 => NotAVersion
 => NotAVersion
1.2.3.4 => NotAVersion
1..2 => NotAVersion
.1.2 => NotAVersion
1.2. => NotAVersion
1.2.x => NotAVersion
+1.2 => NotAVersion
 1.2 => NotAVersion
1.2.3-rc1 => NotAVersion
1.2.٣ => NotAVersion
18446744073709551616.x => NotAVersion
1.18446744073709551616.0 => PartTooLarge
99999999999999999999999999.1 => PartTooLarge
";

// A constraint, and how it is printed.
const PRINTED: &str = "1.2 => = 1.2
1.2.3 => = 1.2.3
 <2.0  => < 2.0
>  1.2.0 => > 1.2.0
<= 01.02 => <= 1.2
>=1.2.3 => >= 1.2.3
~>2.2 => ~> 2.2
~> 18446744073709551615.0.0 => ~> 18446744073709551615.0.0
";

// What is told of the text before the sign.
#[derive(Clone, Copy)]
enum Telling {
    Meeting,
    Constraint,
    Version,
    Printed,
}

fn meeting_told(alloc: Global, text: &str) -> Result<String, Fail> {
    let (constraint, version) = text.split_once(", ").unwrap_or((text, ""));
    if meets(&parse_version(version)?, &parse_constraint(constraint)?) {
        Ok(String::from_str(alloc, "met")?)
    } else {
        Ok(String::from_str(alloc, "not met")?)
    }
}

fn fault_told(alloc: Global, fault: Option<VersionFault>) -> Result<String, AllocError> {
    match fault {
        Some(fault) => format!(in alloc; "{fault:?}"),
        None => String::from_str(alloc, "no fault"),
    }
}

// How a constraint is printed; it reads back.
fn printed_told(alloc: Global, text: &str) -> Result<String, Fail> {
    let constraint = parse_constraint(text)?;
    let printed = Text::of(constraint.to_string(alloc)?);
    if read_constraint(&printed)? != constraint {
        return Ok(String::from_str(alloc, "another constraint")?);
    }
    Ok(printed.into_string())
}

fn told(alloc: Global, telling: Telling, text: &str) -> Result<String, Fail> {
    match telling {
        Telling::Meeting => meeting_told(alloc, text),
        Telling::Constraint => Ok(fault_told(alloc, parse_constraint(text).err())?),
        Telling::Version => Ok(fault_told(alloc, parse_version(text).err())?),
        Telling::Printed => printed_told(alloc, text),
    }
}

// A line, as its text is told.
fn line_told(alloc: Global, telling: Telling, line: &str) -> Result<String, Fail> {
    let (text, _) = line.split_once(" => ").unwrap_or((line, ""));
    let told = told(alloc, telling, text)?;
    Ok(format!(in alloc; "{text} => {told}")?)
}

// The lines that are told otherwise.
fn lines_otherwise(alloc: Global, telling: Telling, lines: &str) -> Result<String, Fail> {
    let mut otherwise = String::new(alloc);
    for line in lines.lines() {
        let told = line_told(alloc, telling, line)?;
        if told.as_str() != line {
            otherwise.push_str(told.as_str())?;
            otherwise.push_str("\n")?;
        }
    }
    Ok(otherwise)
}

#[test]
fn versions_meet_constraints(rt: HostRuntime) -> Result<(), Fail> {
    let otherwise = lines_otherwise(rt.alloc(), Telling::Meeting, MEETINGS)?;
    assert_eq!(rt; otherwise.as_str(), "");
    Ok(())
}

#[test]
fn texts_that_are_no_version_or_constraint(rt: HostRuntime) -> Result<(), Fail> {
    let otherwise = lines_otherwise(rt.alloc(), Telling::Version, BAD_VERSIONS)?;
    assert_eq!(rt; otherwise.as_str(), "");
    let otherwise = lines_otherwise(rt.alloc(), Telling::Constraint, BAD_CONSTRAINTS)?;
    assert_eq!(rt; otherwise.as_str(), "");
    assert_eq!(rt;
        parse_constraint("\t= 1.0").err(),
        Some(VersionFault::NotAVersion)
    );
    Ok(())
}

#[test]
fn printed_texts_read_back(rt: HostRuntime) -> Result<(), Fail> {
    let otherwise = lines_otherwise(rt.alloc(), Telling::Printed, PRINTED)?;
    assert_eq!(rt; otherwise.as_str(), "");
    let version = read_version(&Text::from_str(rt.alloc(), "1.2")?)?;
    assert_eq!(rt;
        version,
        Version {
            major: 1,
            minor: 2,
            patch: 0
        }
    );
    let printed = version.to_string(rt.alloc())?;
    assert_eq!(rt; printed.as_str(), "1.2.0");
    assert_eq!(rt; read_version(&Text::of(printed))?, version);
    Ok(())
}

#[test]
fn versions_are_in_the_order_of_their_parts(rt: HostRuntime) -> Result<(), Fail> {
    let rising = ["0.0.9", "0.1.0", "1.2.3", "1.2.10", "1.10.0", "2.0"];
    for (low, one) in rising.iter().enumerate() {
        for (high, other) in rising.iter().enumerate() {
            let order = compare(&parse_version(one)?, &parse_version(other)?);
            assert_eq!(rt; order, low.cmp(&high), "{one} and {other}");
        }
    }
    let mut named = BTreeMap::new(rt.alloc());
    named.insert(parse_version("1.10.0")?, "ten")?;
    named.insert(parse_version("1.9.0")?, "nine")?;
    named.insert(parse_version("1.9")?, "nine again")?;
    assert_eq!(rt; named.len(), 2);
    assert_eq!(rt;
        named.get(&parse_version("1.9.0")?).copied(),
        Some("nine again")
    );
    assert_eq!(rt; named.into_values().next(), Some("nine again"));
    Ok(())
}

#[test]
fn needs_are_copied(rt: HostRuntime) -> Result<(), Fail> {
    let name = Name::of(Text::from_str(rt.alloc(), "apache2")?)
        .ok()
        .ok_or("a name")?;
    let need = Need {
        name,
        constraint: parse_constraint("~> 2.2")?,
    };
    let copy = need.copy(rt.alloc())?;
    assert_eq!(rt; copy, need);
    let mut needs = Needs::new(rt.alloc());
    needs.push(copy)?;
    assert_eq!(rt; needs.len(), 1);
    Ok(())
}
