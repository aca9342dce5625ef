//! Lines of policies with templates, with what they ask for.

use crate::reader::Item;
use crate::tests::{between, every, read, read_line, reader, v4, v6};
use crate::tests_policies::spec;
use std::test::*;
use xf_types::{
    Addr, Call, Dir, Level, Mark, Mode, PolicySpec, Proto, Selector, Template, Templates,
};

const HERE: Addr = Addr::V4(0xc0000201);

const THERE: Addr = Addr::V4(0xc0000202);

const NONE4: Addr = Addr::V4(0);

const NONE6: Addr = Addr::V6(0);

// A template whose other words have their defaults.
fn template(src: Addr, dst: Addr, proto: Proto) -> Template {
    Template {
        src,
        dst,
        proto,
        spi: 0,
        mode: Mode::Transport,
        reqid: 0,
        level: Level::Required,
    }
}

fn with_mode(mode: Mode) -> Template {
    Template {
        mode,
        ..template(NONE4, NONE4, Proto::Esp)
    }
}

fn with_level(level: Level) -> Template {
    Template {
        level,
        ..template(NONE4, NONE4, Proto::Esp)
    }
}

fn with_reqid(proto: Proto, reqid: u32) -> Template {
    Template {
        reqid,
        ..template(NONE4, NONE4, proto)
    }
}

fn in_order(list: &[Template]) -> Result<Templates, Fail> {
    let mut templates = Templates::none();
    for one in list {
        if templates.items.try_push(*one).is_err() {
            return Err(Fail::new("too many templates"));
        }
    }
    Ok(templates)
}

// A policy that goes out, with its templates.
fn policy(sel: Selector, list: &[Template]) -> Result<PolicySpec, Fail> {
    let mut wanted = spec(Dir::Out, sel);
    wanted.templates = in_order(list)?;
    Ok(wanted)
}

#[test]
fn one_template_is_read(rt: HostRuntime) -> Result<(), Fail> {
    let mut reader = reader(rt.alloc())?;
    let esp = template(NONE4, NONE4, Proto::Esp);
    let whole = Template {
        src: Addr::V6(1),
        dst: Addr::V6(2),
        proto: Proto::Comp,
        spi: u32::MAX,
        mode: Mode::Beet,
        reqid: u32::MAX,
        level: Level::Use,
    };
    let cases: [(&[u8], Template); 21] = [
        (b"proto esp", esp),
        (b"proto ah", template(NONE4, NONE4, Proto::Ah)),
        (b"proto comp", template(NONE4, NONE4, Proto::Comp)),
        (
            b"src 192.0.2.1 dst 192.0.2.2 proto esp",
            template(HERE, THERE, Proto::Esp),
        ),
        (
            b"reqid 4294967295 level use mode beet spi 0xffffffff proto comp dst ::2 src ::1",
            whole,
        ),
        (
            b"spi 0 reqid 0 mode transport level required proto esp",
            esp,
        ),
        (b"proto esp mode tunnel", with_mode(Mode::Tunnel)),
        (b"proto esp mode ro", with_mode(Mode::Ro)),
        (b"mode in_trigger proto esp", with_mode(Mode::InTrigger)),
        (b"level use proto esp", with_level(Level::Use)),
        (b"proto esp reqid 0x7", with_reqid(Proto::Esp, 7)),
        // The other's family.
        (
            b"src 192.0.2.1 proto esp",
            template(HERE, NONE4, Proto::Esp),
        ),
        (
            b"proto esp dst 192.0.2.2",
            template(NONE4, THERE, Proto::Esp),
        ),
        (
            b"src ::1 proto esp",
            template(Addr::V6(1), NONE6, Proto::Esp),
        ),
        (
            b"proto esp dst ::2",
            template(NONE6, Addr::V6(2), Proto::Esp),
        ),
        // Words that end the template, and are the policy's own.
        (b"proto esp priority 0", esp),
        (b"proto esp flag icmp localok", esp),
        (b"proto esp mark 0 mask 0", esp),
        (b"proto esp if_id 0 src any dst all proto 0", esp),
        (
            b"src 192.0.2.1 proto esp index 0 src 0.0.0.0/0",
            template(HERE, NONE4, Proto::Esp),
        ),
        (
            b"dst 192.0.2.2 proto esp ptype main proto 0",
            template(NONE4, THERE, Proto::Esp),
        ),
    ];
    for (words, one) in cases {
        let wanted = policy(every(), &[one])?;
        assert_eq!(rt;
            read(
                &mut reader,
                rt.alloc(),
                b"xfrm policy add dir out tmpl ",
                words
            )?,
            Item::One(Call::PolicyAdd(wanted))
        );
    }
    Ok(())
}

// A template without addresses has the policy's family, wherever the policy's prefixes stand.
#[test]
fn a_template_takes_the_policys_family(rt: HostRuntime) -> Result<(), Fail> {
    let mut reader = reader(rt.alloc())?;
    let every6 = between(v6(0, 0), v6(0, 0));
    let esp4 = template(NONE4, NONE4, Proto::Esp);
    let esp6 = template(NONE6, NONE6, Proto::Esp);
    let cases: [(&[u8], Selector, Template); 9] = [
        (b"src ::/0 tmpl proto esp", every6, esp6),
        (b"dst ::/0 tmpl proto esp", every6, esp6),
        (b"tmpl proto esp if_id 0 dst ::/0", every6, esp6),
        (b"src any dst ::/0 tmpl proto esp", every6, esp6),
        (b"src any dst default tmpl proto esp", every(), esp4),
        (
            b"dst 192.0.2.2 tmpl proto esp",
            between(v4(0, 0), v4(0xc0000202, 32)),
            esp4,
        ),
        // A template's own addresses may be of another family.
        (
            b"src 10.0.0.0/8 tmpl src ::1 dst ::2 proto esp",
            between(v4(10 << 24, 8), v4(0, 0)),
            template(Addr::V6(1), Addr::V6(2), Proto::Esp),
        ),
        (
            b"src ::/0 tmpl dst 192.0.2.2 proto esp",
            every6,
            template(NONE4, THERE, Proto::Esp),
        ),
        (
            b"tmpl src 192.0.2.1 proto esp priority 0 src ::/0",
            every6,
            template(HERE, NONE4, Proto::Esp),
        ),
    ];
    for (words, sel, one) in cases {
        let wanted = policy(sel, &[one])?;
        assert_eq!(rt;
            read(
                &mut reader,
                rt.alloc(),
                b"xfrm policy update dir out ",
                words
            )?,
            Item::One(Call::PolicyUpdate(wanted))
        );
    }
    Ok(())
}

#[test]
fn templates_are_read_in_order(rt: HostRuntime) -> Result<(), Fail> {
    let mut reader = reader(rt.alloc())?;
    let esp = template(NONE4, NONE4, Proto::Esp);
    assert_eq!(rt;
        read_line(
            &mut reader,
            rt.alloc(),
            b"xfrm policy add dir out tmpl proto esp tmpl proto esp",
            1
        )?,
        Ok(Item::One(Call::PolicyAdd(policy(every(), &[esp, esp])?)))
    );
    let six = [
        with_reqid(Proto::Esp, 6),
        with_reqid(Proto::Ah, 5),
        with_reqid(Proto::Comp, 4),
        with_reqid(Proto::Esp, 3),
        template(HERE, THERE, Proto::Esp),
        with_reqid(Proto::Ah, 1),
    ];
    let mut wanted = policy(every(), &six)?;
    wanted.priority = 9;
    wanted.mark = Mark { value: 7, mask: 1 };
    assert_eq!(rt;
        read_line(
            &mut reader,
            rt.alloc(),
            b"xfrm policy add tmpl proto esp reqid 6 tmpl reqid 5 proto ah priority 9 tmpl reqid 4 proto comp \
mark 7 mask 1 tmpl proto esp reqid 3 dir out tmpl src 192.0.2.1 dst 192.0.2.2 proto esp tmpl proto ah reqid 1",
            1
        )?,
        Ok(Item::One(Call::PolicyAdd(wanted)))
    );
    Ok(())
}
