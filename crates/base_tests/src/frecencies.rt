use frecency::next;

#[test]
fn frecencies_at_known_pairs(rt: HostRuntime) {
    for (f, now, after) in [
        (0, 1000, 1000),
        (1_000_000, 1_000_000, 1_021_600),
        (1_010_800, 1_000_000, 1_027_917),
        (999, 1000, 22_599),
        (4_294_967_295, 0, 4_294_967_295),
        (1, 4_294_967_295, 4_294_967_295),
    ] {
        assert!(rt; next(f, now) == after, "of {f} at {now}");
    }
}
