// That the writing succeeds, and that each form is written as a program expects.
use crate::parts::write_parts;
use std::test::Fail;
use versioning::versioning::Versioning;

#[test]
fn each_form_is_written(rt: HostRuntime) -> Result<(), Fail> {
    for (text, want) in [
        ("1.20.3", "semver;1;20;3;_;_"),
        (
            "0.0.4294967295-rc.1+b-2",
            "semver;0;0;4294967295;A:rc,N:1;b-2",
        ),
        ("1.4", "version;_;N:1;N:4;_;_"),
        ("1.a", "version;_;N:1;A:a;_;_"),
        ("1.2r", "version;_;N:1;P:2:r;_;_"),
        ("2:1.2rc3-x.5+m", "version;2;N:1;R:2:rc:3;A:x,N:5;m"),
        (
            "1:02.r3.x-4_5+6~7",
            "mess;D:1:1;:;D:2:02,R:3:r3,P:x;-;D:4:4;_;D:5:5;+;D:6:6;~;D:7:7",
        ),
    ] {
        let label = Versioning::new(text.as_bytes()).ok().ok_or("no label")?;
        let mut out = Vec::new(rt.alloc());
        write_parts(&mut out, text.as_bytes(), &label)?;
        assert_eq!(rt; std::str::from_utf8(&out)?, want);
    }
    Ok(())
}
