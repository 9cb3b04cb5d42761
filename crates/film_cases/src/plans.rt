//! Plans of small projects.

use film_plan::{Plan, PlanRefusal, plan};
use film_reader::read_project;
use mast_base::Limits;
use std::alloc::Global;
use std::process::Abort;
use std::test::Fail;
use uuid::Uuid;

const ONE_ASSET: &str =
    "{\"title\":\"Test\",\"kind\":\"test\",\"issued\":\"2024-05-01T12:00:00\",\"namespace\":\"6ba7b810-9dad-11d1-80b4-00c04fd430c8\",\"width\":64,\"height\":48,\"fps\":24,\"rate\":250,\"power\":11,\"channels\":0,\"frames\":24,\"assets\":[{\"id\":\"a\",\"kind\":\"rgb48\",\"file\":\"a.rgb\"}],\"picture\":[{\"asset\":\"a\",\"at\":0,\"from\":0,\"count\":24}],\"sound\":[]}";

const LEAST_RATE: &str =
    "{\"title\":\"Test\",\"kind\":\"test\",\"issued\":\"2024-05-01T12:00:00\",\"namespace\":\"6ba7b810-9dad-11d1-80b4-00c04fd430c8\",\"width\":64,\"height\":48,\"fps\":48,\"rate\":10,\"power\":11,\"channels\":0,\"frames\":24,\"assets\":[],\"picture\":[],\"sound\":[]}";

/// The last clip of `b` and that of `s` need less than the first, and `a` is hidden by `b`.
const MANY_ASSETS: &str =
    "{\"title\":\"Test\",\"kind\":\"test\",\"issued\":\"2024-05-01T12:00:00\",\"namespace\":\"6ba7b810-9dad-11d1-80b4-00c04fd430c8\",\"width\":64,\"height\":48,\"fps\":25,\"rate\":250,\"power\":11,\"channels\":2,\"frames\":24,\"assets\":[{\"id\":\"a\",\"kind\":\"rgb48\",\"file\":\"a.rgb\"},{\"id\":\"p\",\"kind\":\"ppm\",\"file\":\"p\"},{\"id\":\"b\",\"kind\":\"rgb48\",\"file\":\"b.rgb\"},{\"id\":\"j\",\"kind\":\"j2c\",\"file\":\"j\"},{\"id\":\"s\",\"kind\":\"pcm24\",\"file\":\"s.pcm\",\"channels\":2}],\"picture\":[{\"asset\":\"a\",\"at\":0,\"from\":0,\"count\":3},{\"asset\":\"b\",\"at\":0,\"from\":5,\"count\":3,\"hold\":2},{\"asset\":\"b\",\"at\":3,\"from\":0,\"count\":1},{\"asset\":\"p\",\"at\":4,\"from\":0,\"count\":9},{\"asset\":\"j\",\"at\":13,\"from\":0,\"count\":9}],\"sound\":[{\"asset\":\"s\",\"at\":0,\"from\":10,\"count\":5,\"gains\":[[0,0,65536]]},{\"asset\":\"s\",\"at\":5,\"from\":0,\"count\":1,\"gains\":[[1,1,65536]]}]}";

/// The plan of the project that this text tells.
fn plan_of(rt: &impl Abort, alloc: Global, text: &str, sizes: &[u64]) -> Result<Plan, PlanRefusal> {
    match read_project(alloc, text.as_bytes()) {
        Ok(project) => {
            assert_eq!(rt; project.assets.len(), sizes.len());
            plan(alloc, &project, sizes)
        }
        Err(refusal) => {
            assert!(rt; false, "{refusal:?}");
            Err(PlanRefusal::NoMemory)
        }
    }
}

fn expect_limits(rt: &impl Abort, alloc: Global, text: &str, sizes: &[u64], limits: Limits) {
    match plan_of(rt, alloc, text, sizes) {
        Ok(plan) => assert_eq!(rt; plan.limits, limits),
        Err(refusal) => assert!(rt; false, "{refusal:?}"),
    }
}

/// The asset of this id is told, with its size and its need.
fn expect_short(
    rt: &impl Abort,
    alloc: Global,
    text: &str,
    sizes: &[u64],
    id: &str,
    told: (u64, u64),
) {
    match plan_of(rt, alloc, text, sizes) {
        Err(PlanRefusal::InputShort { asset, size, need }) => {
            assert_eq!(rt; asset.as_slice(), id.as_bytes());
            assert_eq!(rt; (size, need), told);
        }
        Err(PlanRefusal::NoMemory) => assert!(rt; false, "no memory"),
        Ok(_) => assert!(rt; false, "there is a plan"),
    }
}

#[test]
fn limits_are_rounded_down(rt: HostRuntime) -> Result<(), Fail> {
    let alloc = rt.alloc();
    let greatest = Limits {
        frame: 1_302_083,
        component: 1_041_666,
    };
    expect_limits(&rt, alloc, ONE_ASSET, &[442_368], greatest);
    let least = Limits {
        frame: 26_041,
        component: 20_833,
    };
    expect_limits(&rt, alloc, LEAST_RATE, &[], least);
    Ok(())
}

#[test]
fn the_first_short_asset_is_told(rt: HostRuntime) -> Result<(), Fail> {
    let alloc = rt.alloc();
    expect_short(&rt, alloc, ONE_ASSET, &[442_367], "a", (442_367, 442_368));
    let sizes = [55_296, 0, 129_024, 0, 172_800];
    assert!(rt; plan_of(&rt, alloc, MANY_ASSETS, &sizes).is_ok());
    let sizes = [55_295, 0, 0, 0, 0];
    expect_short(&rt, alloc, MANY_ASSETS, &sizes, "a", (55_295, 55_296));
    let sizes = [55_296, 0, 129_023, 0, 0];
    expect_short(&rt, alloc, MANY_ASSETS, &sizes, "b", (129_023, 129_024));
    let sizes = [55_296, 0, 129_024, 0, 172_799];
    expect_short(&rt, alloc, MANY_ASSETS, &sizes, "s", (172_799, 172_800));
    Ok(())
}

fn expect_id(rt: &impl Abort, id: [u8; 16], text: &str) {
    let mut buffer = Uuid::encode_buffer();
    assert_eq!(rt;
        Uuid::from_bytes(id).hyphenated().encode_lower(&mut buffer),
        text
    );
}

#[test]
fn ids_and_the_jobs_text(rt: HostRuntime) -> Result<(), Fail> {
    match plan_of(&rt, rt.alloc(), ONE_ASSET, &[442_368]) {
        Ok(plan) => {
            expect_id(&rt, plan.ids.cpl, "099d0bef-a670-53f6-a21f-a9a44ad58790");
            expect_id(&rt, plan.ids.pkl, "17efba52-0821-5689-9bca-7d1634948ee2");
            expect_id(&rt, plan.ids.map, "bfc39f7c-54c3-58bb-8983-49ceab7ef868");
            expect_id(&rt, plan.ids.reel, "d102e859-2b55-5f58-b225-94b18fd22e17");
            expect_id(
                &rt,
                plan.ids.picture,
                "620cd5ce-bc69-5360-8a34-6b235b8d68e5",
            );
            expect_id(&rt, plan.ids.sound, "1627ae42-ac67-5162-8724-5be580d80e87");
            let head =
                b"DCPJOB 1\n{\"assets\":[{\"channels\":0,\"file\":\"a.rgb\",\"id\":\"a\",\"kind\":\"rgb48\"}],\"channels\":0,\"fps\":24,";
            assert!(rt; plan.job_text.as_slice().starts_with(head));
        }
        Err(refusal) => assert!(rt; false, "{refusal:?}"),
    }
    Ok(())
}
